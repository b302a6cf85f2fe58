//! The headline: along a lawful log, where the books of the terminals are honest, what was done and what tills were sent agrees with them.
#![tactic(auto)]

ghost use Rattle.gw_books.specs.BrokenLaws.{NotLawful};
ghost use Rattle.gw_books.specs.Example.{PaidRoundIsAsked, PaidRoundIsSaid, RefusedRoundIsSaid};
ghost use Rattle.gw_books.specs.Headline.{HonestAgrees};
ghost use Rattle.gw_books.specs.PastLaws.{EachHasOnePast, EachLogAgrees, HonestForPrefix};
ghost use Rattle.gw_books.specs.RecoveryExample.{AsideIsNotHonest, RecoveredIsRepeated, RecoveredIsResolved, RecoveredIsSaid, UnperformedIsResolved};
ghost use Rattle.gw_books.specs.RecoveryLaws.{EachOutcomeIsTrue, HonestSetsNoneAside, ReportIsSaid, ReportedIsResolved, SaidAsKept};
ghost use Rattle.gw_books.specs.RepeatLaws.{FinishedStays, FirstReplyIsKept, PaidStays};
ghost use Rattle.gw_books.specs.ReversalExample.{AbortedRoundIsStopped, ReversalIsNoPayment, ReversalRoundIsAsked, ReversedAgrees, ReversedHasPast, ReversedIsBooked};
ghost use Rattle.gw_books.specs.ReversalLaws.{EntryIsAsAsked, OnlyPaidIsReversed, ReversalIsAsked, BookedReversedOnce, StopIsSent};
ghost use Rattle.gw_books.specs.RoundLaws.{ApprovalIsSaid, DeclineIsSaid, OwedIsDone, PaymentIsAsked};
ghost use Rattle.gw_books.specs.SaidLaws.{EachReplyIsFramed, EachReplySays, EachSentIsFramed, OneMessageIsFramed};
ghost use Rattle.gw_books.specs.TillLaws.{PaidIsSaid, RefusedIsNeverCharged, RefusedIsSaid, SuccessIsBooked};
ghost use Rattle.gw_books.specs.WindowExample.{ComingDoesNotMatch, RefusedMatches, ReversedMatches, UnmatchedBooks, WindowEnds};
ghost use Rattle.gw_books.specs.WindowLaws.{HonestMatches};

/// What a till is sent says what its reply says: a reply its own category, key, result and condition, and that of a finished request its
/// transaction and its amount; one that repeats says its own success, and then what it repeats; a device request and an event say nothing
/// of a request. The bytes of a reply within its limits are the frame of its message, and of no other.
pub fn law_said()
    ensures says { EachReplySays }
    ensures framed { EachReplyIsFramed }
    ensures one { OneMessageIsFramed }
{}

/// All bytes that a till is sent, whole, are the frame of the message of a reply, in each lawful log and whatever the books say.
pub fn law_sent()
    ensures framed { EachSentIsFramed }
{
    gw_owes::law_records();
    gw_owes::law_waits();
    gw_ledger::law_next();
    gw_ledger::law_open();
    gw_ledger::law_within();
    gw_ledger::law_named();
    gw_ledger::law_fits();
}

/// A key that is finished keeps its reply: whatever records come later, what the records have under it stays. Each key has a reply as its
/// Outcome is kept, and the kept reply is that one, which is owed to its till.
pub fn law_kept_replies()
    ensures stays { FinishedStays }
    ensures first { FirstReplyIsKept }
    ensures example { PaidStays }
{
    gw_ledger::law_next();
    gw_ledger::law_open();
    gw_ledger::law_within();
    gw_ledger::law_named();
    gw_ledger::law_fits();
}

/// What a round has done of a payment before the next poll may come. Whatever is owed is done by then, in its order and before anything
/// else: a send that fails counts as made, also one of no byte. So a payment that comes to the last of its steps at a terminal that is
/// ready is kept and asked, and the approval or the decline of a payment or a reversal is kept, and said to the till that asked, where it
/// is there: each after its record is synced. What these ask holds along the courses of the examples: where the till's request is heard,
/// where the Completion is acknowledged, and where the terminal's abort is.
pub fn law_rounds()
    ensures done { OwedIsDone }
    ensures asked { PaymentIsAsked }
    ensures approved { ApprovalIsSaid }
    ensures declined { DeclineIsSaid }
    ensures example { PaidRoundIsAsked }
    ensures approved_example { PaidRoundIsSaid }
    ensures declined_example { RefusedRoundIsSaid }
{
    gw_owes::law_records();
    gw_owes::law_waits();
    gw_owes::law_payment_begins();
    gw_owes::law_payment_ends();
}

/// What a round has done of a reversal or an Abort before the next poll may come. A reversal that comes to the last of its steps at a
/// terminal that is ready has its Intent kept, with the amount and the currency of its original, and then the terminal is asked to
/// reverse the original's receipt. An Abort of what a terminal serves is sent on as a stop, where the dialogue is begun and none was sent
/// in it. What these ask holds along the courses of the examples.
pub fn law_reversal_rounds()
    ensures asked { ReversalIsAsked }
    ensures stopped { StopIsSent }
    ensures example { ReversalRoundIsAsked }
    ensures stopped_example { AbortedRoundIsStopped }
{
    gw_owes::law_records();
    gw_owes::law_waits();
    gw_owes::law_payment_begins();
    gw_owes::law_aborts();
}

/// A payment is reversed at most once, whatever tills ask and wherever the power fails: in a book that is honest for a lawful log no two
/// approved entries are of commands that were sent in the log for reversals of one payment (an entry of a command that is sent after the
/// log's end is judged along the longer log). A reversal is kept only of a payment that the book has as approved, and its Intent has the
/// amount of that entry. An entry whose command was sent in the log is of the kind of what was asked under its key; a success of a
/// payment doesn't agree with a reversal. In the example a payment is approved and then reversed, and the book with both
/// entries is honest and agrees. Of which transaction the terminal has reversed, and of the amount that it has booked for that, nothing
/// is said.
pub fn law_reversed_once()
    ensures once { BookedReversedOnce }
    ensures paid { OnlyPaidIsReversed }
    ensures entries { EntryIsAsAsked }
    ensures past { ReversedHasPast }
    ensures agrees { ReversedAgrees }
    ensures example { ReversedIsBooked }
    ensures other { ReversalIsNoPayment }
{
    gw_owes::law_records();
    gw_owes::law_waits();
    gw_ledger::law_next();
    gw_ledger::law_open();
    gw_ledger::law_within();
    gw_ledger::law_named();
    gw_ledger::law_fits();
    gw_ledger::law_reversed_once();
}

/// What has happened along a lawful log is one past. A book that is honest for it is honest for that of each prefix of the log.
pub fn law_past()
    ensures one { EachHasOnePast }
    ensures prefix { HonestForPrefix }
{}

/// What a till may rely on to which the end of a payment or a reversal was said, wherever the books of the terminals are honest: a success
/// is an approved entry of its key and its kind, with its amount, its number and its receipt, which was booked before it was said; a failure with the
/// mark of a transaction has no approved entry of its key in the whole book, and so never will have one (an entry of a command that is
/// sent after the log's end is judged along the longer log). In the examples the one is said, and the other where a declined entry of its
/// key is booked.
pub fn law_tills()
    ensures success { SuccessIsBooked }
    ensures refused { RefusedIsNeverCharged }
    ensures paid { PaidIsSaid }
    ensures declined { RefusedIsSaid }
{
    law_headline();
}

/// What those who operate a gateway may rely on, wherever the books of the terminals are honest. After any number of power failures, at
/// whatever places and with whatever images: at each poll while a link lasts on whose enquiry its terminal has reported, each key of its
/// POIID that was kept before the link has its Outcome. Each Outcome on record at a poll is the terminal's: an approval has its entry, of its kind,
/// and a decline has none that is approved, now or ever. It stays so with whatever is kept later, and with it the kept reply. Each
/// success that is said of a key with an Outcome by a report, in any run, also where a TransactionStatus repeats it, has the numbers and
/// the amount of that one Outcome, and each failure with the mark of a transaction is of its decline. No terminal is set aside. Whatever
/// the books are, a report of what is open, with a trace number that isn't below the one before, is kept, and said to the till that
/// asked, where it is there, before the next poll. In the examples the power fails once a payment's command was sent, and a later run has
/// the terminal's report: the payment was booked, and its Outcome is that approval, which a TransactionStatus then repeats, or nothing
/// was, and it is a decline; a report comes while the till of the payment is there; and a terminal is set aside along a course for which
/// neither the book with the transaction that it has reported first nor the empty one is honest.
pub fn law_recovery()
    ensures resolved { ReportedIsResolved }
    ensures outcomes { EachOutcomeIsTrue }
    ensures stays { FinishedStays }
    ensures same { SaidAsKept }
    ensures said { ReportIsSaid }
    ensures aside { HonestSetsNoneAside }
    ensures example { RecoveredIsResolved }
    ensures same_example { RecoveredIsRepeated }
    ensures unperformed_example { UnperformedIsResolved }
    ensures said_example { RecoveredIsSaid }
    ensures aside_example { AsideIsNotHonest }
{
    gw_owes::law_records();
    gw_owes::law_waits();
    gw_owes::law_open_reports();
    gw_ledger::law_next();
    gw_ledger::law_open();
    gw_ledger::law_within();
    gw_ledger::law_named();
    gw_ledger::law_fits();
}

/// What an auditor with the journal and the books may rely on. Whatever was asked and wherever the power failed, the kept records match
/// each honest book in which no entry's command is still to come after the log's end. Each record is within its limits and may come after
/// those before it, and trace numbers rise along the entries of one numbering. The window of an Intent has the trace numbers above its
/// number before, up to the number before of the next Intent of its numbering. It has at most one approved entry, and that has the
/// Intent's key. The window of an approved key has its entry, of its kind, with its numbers and its amount, and that of a declined key
/// has no approved one. In the examples a payment is approved and then reversed: the records match the book with both entries, and the
/// window of the payment ends where that of the reversal begins. The records of a declined payment match the book with its declined entry,
/// and don't match an honest book with an approved entry whose command is still to come. Each part of the match has records and a book
/// that it alone refuses.
pub fn law_windows()
    ensures matches { HonestMatches }
    ensures example { ReversedMatches }
    ensures declined { RefusedMatches }
    ensures coming { ComingDoesNotMatch }
    ensures unmatched { UnmatchedBooks }
    ensures ends { WindowEnds }
{
    gw_owes::law_records();
    gw_owes::law_waits();
    gw_ledger::law_next();
    gw_ledger::law_open();
    gw_ledger::law_within();
    gw_ledger::law_named();
    gw_ledger::law_fits();
}

/// The headline. Along each lawful log, with power failures, records in flight, enquiries and all terminals, each book that is honest
/// agrees with what was done and what tills were sent: each command that may charge a card was sent for a key of its own, and no two
/// entries are of one key; a success is an approved entry of its key, a payment or a reversal as it says, with its numbers and its amount,
/// which was booked before it was said; of the key of a refusal with the mark of a transaction no entry is approved, and none ever will be; what is said not to be
/// accepted, but with `MessageFormat` or with `NotAllowed` to other content, has no Intent, and neither has what is said not to be found;
/// what is said to be in progress is unresolved, or an end of day that a terminal serves; at a poll, where a terminal's link lasts whose
/// enquiry has reported, no key is open that was open as the link was made; and what is outside the grammars changes no book. So it is of
/// each prefix of the log. A course along which an honest book doesn't agree is the lean course of no log.
pub fn law_headline()
    ensures headline { HonestAgrees }
    ensures throughout { EachLogAgrees }
    ensures broken { NotLawful }
{
    gw_owes::law_records();
    gw_owes::law_waits();
    gw_ledger::law_next();
    gw_ledger::law_open();
    gw_ledger::law_within();
    gw_ledger::law_named();
    gw_ledger::law_fits();
}
