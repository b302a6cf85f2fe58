//! Examples of what the headline says, along courses of a gateway with one terminal.
#![tactic(auto)]

ghost use Rattle.book_examples.specs.DayExample.{SettledAgrees, SettledHasPast};
ghost use Rattle.book_examples.specs.DisagreeExample.{DisorderedBooks, EntriesOfOneKey, KeylessDisagrees, LaterEntryDisagrees, LinksEnd, NotFoundDisagrees, OtherContentAgrees, OtherKeyDisagrees, OtherRepeatDisagrees, OtherTerminalBooks, OutsideDisagrees, ProgressDisagrees, RepeatAgrees, ReportedBooks, SameContentDisagrees, TwiceDisagrees, UnacceptedDisagrees, UnbookedDisagrees, UncausedBooks, UnreportedMayBeOpen, UnresolvedDisagrees, UntrueBooks, WaitingIsInProgress};
ghost use Rattle.book_examples.specs.Example.{AskedHasPast, LostAgrees, LostHasPast, PaidAgrees, PaidHasPast, RefusedAgrees, RefusedHasPast};
ghost use Rattle.book_examples.specs.KindExample.{KindsOfCommands};
ghost use Rattle.book_examples.specs.QueuedExample.{DayIsInProgress, QueuedAgrees, QueuedHasPast, TakenOutDisagrees};

/// Examples of what the headline says, each along a course of a gateway with one terminal. The logs of a payment that is approved, of
/// one that is declined, of one whose link is lost before its end, and of an end of day that is asked for again while it is served, with
/// a device request on its way and a display after it, are lawful; what has happened along each is as it is written out; and the book
/// with the approved entry, the empty book, and either of them, is honest for it and agrees, for the last the empty one. So it is of a
/// payment that waits while its terminal serves an end of day: it is in progress, and is begun and approved after that. What doesn't
/// agree with a book that is honest for it: a command that is sent twice, also with an entry for each, and one without a key; a success
/// without its entry, or with one that comes later, is declined, or has another amount or receipt number, also where it is repeated; a
/// refusal whose command is approved later; a key that has its Outcome said to be in progress, not accepted, or not allowed with the
/// content that was accepted, or as another request has other content; a payment that waits no longer, and an end of day that is over,
/// said to be in progress; a payment that was accepted said not to be found, also as a status asks for another key; a write for bytes
/// outside the grammars; a key that is open since before its link at a poll after an enquiry has reported, while the link lasts. What
/// isn't honest: an entry without its command, of another kind or at another terminal than its command, or after its link was replaced;
/// trace numbers that don't rise, places that fall, and two entries of one command; an end of a dialogue that isn't true of the book.
/// What another terminal books, that it is linked, and a refund from before the log break no honesty. The first two bytes of a command
/// say its kind: `06 01` a payment and `06 30` a reversal.
pub fn law_examples()
    ensures asked { AskedHasPast }
    ensures paid { PaidHasPast }
    ensures paid_agrees { PaidAgrees }
    ensures declined { RefusedHasPast }
    ensures declined_agrees { RefusedAgrees }
    ensures lost { LostHasPast }
    ensures lost_agrees { LostAgrees }
    ensures day { SettledHasPast }
    ensures day_agrees { SettledAgrees }
    ensures queued { QueuedHasPast }
    ensures queued_agrees { QueuedAgrees }
    ensures twice { TwiceDisagrees }
    ensures one_key { EntriesOfOneKey }
    ensures keyless { KeylessDisagrees }
    ensures unbooked { UnbookedDisagrees }
    ensures later { LaterEntryDisagrees }
    ensures progress { ProgressDisagrees }
    ensures unaccepted { UnacceptedDisagrees }
    ensures same_content { SameContentDisagrees }
    ensures other_content { OtherContentAgrees }
    ensures other_key { OtherKeyDisagrees }
    ensures not_found { NotFoundDisagrees }
    ensures repeat { RepeatAgrees }
    ensures other_repeat { OtherRepeatDisagrees }
    ensures outside { OutsideDisagrees }
    ensures unresolved { UnresolvedDisagrees }
    ensures waiting { WaitingIsInProgress }
    ensures taken_out { TakenOutDisagrees }
    ensures day_progress { DayIsInProgress }
    ensures unreported { UnreportedMayBeOpen }
    ensures links_end { LinksEnd }
    ensures uncaused_books { UncausedBooks }
    ensures disordered_books { DisorderedBooks }
    ensures untrue_books { UntrueBooks }
    ensures reported_books { ReportedBooks }
    ensures other_books { OtherTerminalBooks }
    ensures kinds { KindsOfCommands }
{}
