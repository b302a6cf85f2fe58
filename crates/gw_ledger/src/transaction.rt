//! The text that names a transaction at its terminal.
ghost use Rattle.std.specs.Prelude.{◌≡◌, ℕ, ◌^◌, ◌<◌, drop, Some};
ghost use Rattle.std.specs.Fmt.{decimal};
ghost use Rattle.gw_ledger.specs.History.{same_text};
ghost use Rattle.gw_ledger.specs.Transaction.{is_named, is_text};

use crate::entry::Entry;
use gw_base::{Ident, transaction_text};
use std::cmp::Ordering;

/// How many bytes a text has before the slot.
const SLOT_OFFSET: usize = 12;

/// The slot at the end of a text that names a transaction; another text may have one too.
pub(crate) fn slot_in(text: &[u8]) -> Option<u32>
    ensures { (slot : ℕ) → slot < 2 ^ 32 → drop 12 text.now ≡ decimal slot → result ≡ Some slot }
{
    if text.len() < SLOT_OFFSET {
        return None;
    }
    number_in(&text[SLOT_OFFSET..])
}

/// The number that a text spells, perhaps with a sign or leading zeros.
fn number_in(text: &[u8]) -> Option<u32>
    ensures { (value : ℕ) → value < 2 ^ 32 → text.now ≡ decimal value → result ≡ Some value }
{
    match str::from_utf8(text) {
        Ok(text) => u32::from_str_radix(text, 10).ok(),
        Err(_) => None,
    }
}

/// Whether the entry is one of this terminal that has its Outcome, and has this text.
pub(crate) fn is_named(entry: &Entry, poi: &Ident<40>, text: &[u8]) -> bool
    ensures { result ≡ is_named poi.now text.now (Some entry.now) }
{
    is_same(poi.as_bytes(), entry.intent.poi.as_bytes())
        && match &entry.result {
            Some(outcome) => is_same(
                text,
                transaction_text(outcome.number, outcome.receipt, entry.slot).as_slice(),
            ),
            None => false,
        }
}

/// Whether two texts have the same bytes.
fn is_same(a: &[u8], b: &[u8]) -> bool
    ensures { result ≡ same_text a.now b.now }
{
    match a.cmp(b) {
        Ordering::Equal => true,
        Ordering::Less | Ordering::Greater => false,
    }
}
