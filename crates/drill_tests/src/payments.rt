//! The payments of the drill that begins at 1, and what the books of its terminals have of them.
use pt_core::BookEntry;
use sim_site::SimSite;

/// A payment of the drill.
pub(crate) struct Payment {
    /// Its ServiceID.
    service: &'static [u8],
    /// Its terminal's number.
    pt: u16,
    /// In minor units.
    pub(crate) amount: u64,
}

/// The first is booked and its connection cut, the second approved, and at the third the connection is cut at once. No two have one amount,
/// so an entry's amount says which payment it is of.
pub(crate) const PAYMENTS: [Payment; 3] = [
    Payment {
        service: b"1",
        pt: 1,
        amount: 69_549,
    },
    Payment {
        service: b"2",
        pt: 0,
        amount: 85_742,
    },
    Payment {
        service: b"3",
        pt: 1,
        amount: 34_261,
    },
];

/// The payment with this ServiceID.
pub(crate) fn payment_of(service: &[u8]) -> Option<&'static Payment> {
    for payment in &PAYMENTS {
        if payment.service == service {
            return Some(payment);
        }
    }
    None
}

/// The entries of the terminal of this number.
pub(crate) fn entries_at(site: &SimSite, pt: u16) -> &[BookEntry] {
    match site.book(pt) {
        Some(book) => book.as_slice(),
        None => &[],
    }
}

/// How many of the entries are approved payments of this amount.
fn count_of(entries: &[BookEntry], amount: u64) -> usize {
    let mut count: usize = 0;
    for entry in entries {
        if entry.amount == amount && entry.approved && !entry.reversal {
            count = count.saturating_add(1);
        }
    }
    count
}

/// How often a payment is booked by its terminal.
pub(crate) fn times_booked(site: &SimSite, payment: &Payment) -> usize {
    count_of(entries_at(site, payment.pt), payment.amount)
}

/// The entry of a payment.
pub(crate) fn entry_of<'a>(site: &'a SimSite, payment: &Payment) -> Option<&'a BookEntry> {
    for entry in entries_at(site, payment.pt) {
        if entry.amount == payment.amount {
            return Some(entry);
        }
    }
    None
}

/// How many entries both books have, and their minor units.
pub(crate) fn booked_in_all(site: &SimSite) -> (usize, u64) {
    let mut sum: u64 = 0;
    for pt in 0..2 {
        for entry in entries_at(site, pt) {
            sum = sum.saturating_add(entry.amount);
        }
    }
    let (first, second) = (entries_at(site, 0), entries_at(site, 1));
    (first.len().saturating_add(second.len()), sum)
}

/// How many payments are booked, where each is booked once at most; `None` where one is booked twice, or something else is booked.
pub(crate) fn booked_once(site: &SimSite) -> Option<usize> {
    let mut count: usize = 0;
    for payment in &PAYMENTS {
        let times = times_booked(site, payment);
        if times > 1 {
            return None;
        }
        count = count.saturating_add(times);
    }
    let (entries, _) = booked_in_all(site);
    if count == entries { Some(count) } else { None }
}
