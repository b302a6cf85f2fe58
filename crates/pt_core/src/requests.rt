//! What a played terminal does at one request.
ghost use Rattle.std.specs.Prelude.{◌≡◌, ◌≤◌, ◌+◌, ◌-◌, ◌<◌, ◌++◌, [], length, vec_len, vec_capacity, IsTrue, Some, IfSome, slice_get, drop, if◌then◌else◌, option_to_list};
ghost use Rattle.zvt_apdu.specs.Grammar.{value_of};
ghost use Rattle.zvt_msg.specs.CommandGrammar.{HasCommandDigits};
ghost use Rattle.zvt_msg.specs.CommandDecode.{decode_command};
ghost use Rattle.pt_core.specs.Book.{all_fit, fits_status, is_full, last_book_entry, last_trace, last_payment, next_entry};
ghost use Rattle.pt_core.specs.Table.{at_command, at_other, bytes_of, by_command, cuts, enquiry, entries_of, is_authorisation, payment, reversal, reported_fits};
ghost use Rattle.pt_core.specs.Serving.{account_after, first_play, reaction_by};
ghost use Rattle.pt_core.specs.inner.Results.{account_value};

use crate::account::Account;
use crate::book::BookEntry;
use crate::play::Play;
use crate::reaction::Reaction;
use arrayvec::ArrayVec;
use gw_bytes::{GREATEST_RECEIPT, GREATEST_TRACE};
use zvt_apdu::Apdu;
use zvt_msg::{Command, law_commands, read_command};

/// The last trace number of an entry.
const LAST_TRACE: usize = GREATEST_TRACE as usize;

/// How many receipt numbers there are, with 0.
const RECEIPTS: u32 = GREATEST_RECEIPT as u32 + 1;

/// The result code of a payment or a reversal after the last trace number.
const FULL: u8 = 0x83;

/// The result code of a reversal of no payment.
const NO_PAYMENT: u8 = 0xB4;

impl Account<'_> {
    /// Does what the request asks for, and appends what is sent. True where the connection is cut after it.
    pub(crate) fn serve(&mut self, apdu: &Apdu<'_>, out: &mut Vec<u8>) -> bool
        requires sent_room { vec_len out.old + 32 ≤ vec_capacity out.old }
        requires book_room { vec_len self.old.entries + 1 ≤ vec_capacity self.old.entries }
        ensures account { account_value self.new ≡ account_after (account_value self.old) (value_of apdu.now) }
        ensures bytes { out.new.items ≡ out.old.items ++ bytes_of (reaction_by (account_value self.old) (value_of apdu.now)) }
        ensures cut { result ≡ cuts (reaction_by (account_value self.old) (value_of apdu.now)) }
        ensures none { self.new.none ≡ self.old.none }
        ensures plays { self.new.plays ≡ self.old.plays }
        ensures sent_len { vec_len out.new ≤ vec_len out.old + 32 }
        ensures sent_capacity { vec_capacity out.old ≤ vec_capacity out.new }
        ensures book_len { vec_len self.new.entries ≤ vec_len self.old.entries + 1 }
        ensures book_capacity { vec_capacity self.old.entries ≤ vec_capacity self.new.entries }
    {
        law_commands();
        let command = read_command(apdu);
        // Chosen before the play is used up and the entry is booked, since it goes by both.
        let reaction = self.reaction(apdu.class, &command);
        self.use_play(&command);
        self.book(reaction.entry());
        append_reaction(&reaction, out);
        reaction.cuts()
    }

    /// What is done at a request of this class, which spells this command or none.
    fn reaction(&self, class: u8, command: &Option<Command>) -> Reaction
        requires { IfSome command.now HasCommandDigits }
        ensures reaction { result ≡ by_command self.now.none (first_play (account_value self.now).plays) self.now.entries.items class command.now }
        ensures reported { IsTrue (reported_fits result) }
        ensures booked { IsTrue (all_fit (entries_of result)) }
        ensures few { vec_len self.now.entries + length (entries_of result) ≤ last_trace }
    {
        match command {
            None if class == 0x80 || class == 0x84 => Reaction::Silent,
            None => Reaction::Refused,
            Some(command) => self.at_command(command),
        }
    }

    fn at_command(&self, command: &Command) -> Reaction
        requires { HasCommandDigits command.now }
        ensures reaction { result ≡ at_command self.now.none (first_play (account_value self.now).plays) self.now.entries.items command.now }
        ensures reported { IsTrue (reported_fits result) }
        ensures booked { IsTrue (all_fit (entries_of result)) }
        ensures few { vec_len self.now.entries + length (entries_of result) ≤ last_trace }
    {
        match command {
            Command::Register { .. } | Command::EndOfDay { .. } => Reaction::Completed,
            Command::Authorise { amount, .. } => self.payment(*amount),
            Command::Enquire { .. } => self.enquiry(),
            Command::Reverse { receipt, .. } => self.reversal(*receipt),
            Command::Stop => Reaction::Silent,
            Command::Show { .. } => Reaction::Acknowledged,
        }
    }

    fn payment(&self, amount: u64) -> Reaction
        requires { amount < 1000000000000 }
        ensures reaction { result ≡ (if is_full self.now.entries.items then Reaction.Aborted 0x83 else payment (first_play (account_value self.now).plays) self.now.entries.items amount) }
        ensures reported { IsTrue (reported_fits result) }
        ensures booked { IsTrue (all_fit (entries_of result)) }
        ensures few { vec_len self.now.entries + length (entries_of result) ≤ last_trace }
    {
        if self.entries.len() >= LAST_TRACE {
            return Reaction::Aborted(FULL);
        }
        match self.play() {
            Play::Approve => Reaction::Approved(self.next_entry(amount, false)),
            Play::Decline(result_code) => Reaction::Aborted(result_code),
            Play::CutAfterBook => Reaction::Booked(self.next_entry(amount, false)),
            Play::DropAtOnce => Reaction::Dropped,
        }
    }

    fn reversal(&self, receipt: u16) -> Reaction
        ensures reaction { result ≡ (if is_full self.now.entries.items then Reaction.Aborted 0x83 else reversal (last_payment receipt self.now.entries.items) self.now.entries.items) }
        ensures reported { IsTrue (reported_fits result) }
        ensures booked { IsTrue (all_fit (entries_of result)) }
        ensures few { vec_len self.now.entries + length (entries_of result) ≤ last_trace }
    {
        if self.entries.len() >= LAST_TRACE {
            return Reaction::Aborted(FULL);
        }
        match last_payment(&self.entries, receipt) {
            None => Reaction::Aborted(NO_PAYMENT),
            Some(paid) => Reaction::Approved(self.next_entry(paid.amount, true)),
        }
    }

    fn enquiry(&self) -> Reaction
        ensures reaction { result ≡ enquiry self.now.none (last_book_entry self.now.entries.items) }
        ensures reported { IsTrue (reported_fits result) }
        ensures booked { IsTrue (all_fit (entries_of result)) }
        ensures few { vec_len self.now.entries + length (entries_of result) ≤ last_trace }
    {
        match self.entries.last() {
            None => Reaction::Aborted(self.none),
            Some(entry) => Reaction::Reported(*entry),
        }
    }

    /// The play at the next payment.
    fn play(&self) -> Play
        ensures { result ≡ first_play (account_value self.now).plays }
    {
        self.plays
            .inner()
            .get(self.used)
            .copied()
            .unwrap_or(Play::Approve)
    }

    /// The entry that follows the last one.
    fn next_entry(&self, amount: u64, reversal: bool) -> BookEntry
        requires few { vec_len self.now.entries < last_trace }
        requires amount { amount < 1000000000000 }
        ensures entry { result ≡ next_entry self.now.entries.items amount reversal }
        ensures fits { IsTrue (fits_status result) }
    {
        let trace = self.entries.len() as u32 + 1;
        BookEntry {
            number: trace,
            receipt: (trace % RECEIPTS) as u16,
            amount,
            reversal,
            approved: true,
        }
    }

    /// Uses up a play where the command is an authorisation.
    fn use_play(&mut self, command: &Option<Command>)
        ensures plays { (account_value self.new).plays ≡ (if is_authorisation command.now then drop 1 (account_value self.old).plays else (account_value self.old).plays) }
        ensures none { self.new.none ≡ self.old.none }
        ensures same { self.new.plays ≡ self.old.plays }
        ensures entries { self.new.entries ≡ self.old.entries }
    {
        if let Some(Command::Authorise { .. }) = command {
            self.used = next_index(self.used, self.plays.inner());
        }
    }

    /// Books an entry, if there is one.
    fn book(&mut self, entry: Option<BookEntry>)
        requires room { vec_len self.old.entries < vec_capacity self.old.entries }
        requires fits { IfSome entry (λ entry. IsTrue (fits_status entry)) }
        requires few { IfSome entry (λ entry. vec_len self.old.entries < last_trace) }
        ensures entries { self.new.entries.items ≡ self.old.entries.items ++ option_to_list entry }
        ensures none { self.new.none ≡ self.old.none }
        ensures plays { self.new.plays ≡ self.old.plays }
        ensures used { self.new.used ≡ self.old.used }
        ensures len { vec_len self.new.entries ≤ vec_len self.old.entries + 1 }
        ensures capacity { vec_capacity self.old.entries ≤ vec_capacity self.new.entries }
    {
        if let Some(entry) = entry {
            self.entries.push(entry).unwrap();
        }
    }
}

/// The index of the next play; it stays where none is left.
fn next_index(used: usize, plays: &Vec<Play>) -> usize
    ensures { drop result plays.now.items ≡ drop 1 (drop used plays.now.items) }
{
    if used < plays.len() { used + 1 } else { used }
}

/// The last approved payment with this receipt number.
fn last_payment(entries: &[BookEntry], receipt: u16) -> Option<BookEntry>
    requires { IsTrue (all_fit entries.now) }
    ensures payment { result ≡ last_payment receipt entries.now }
    ensures fits { IfSome result (λ entry. IsTrue (fits_status entry)) }
{
    find_payment(entries, receipt)
}

fn find_payment(entries: &[BookEntry], receipt: u16) -> Option<BookEntry>
    ensures { result ≡ last_payment receipt entries.now }
{
    let mut rest = entries;
    while let Some((entry, before)) = rest.split_last() {
        if entry.is_payment_with(receipt) {
            return Some(*entry);
        }
        rest = before;
    }
    None
}

fn append_reaction(reaction: &Reaction, out: &mut Vec<u8>)
    requires fits { IsTrue (reported_fits reaction.now) }
    requires room { vec_len out.old + 32 ≤ vec_capacity out.old }
    ensures bytes { out.new.items ≡ out.old.items ++ bytes_of reaction.now }
    ensures len { vec_len out.new ≤ vec_len out.old + 32 }
    ensures capacity { vec_capacity out.old ≤ vec_capacity out.new }
{
    let mut written = ArrayVec::new();
    reaction.write(&mut written);
    out.extend_from_slice(written.as_slice()).unwrap();
}
