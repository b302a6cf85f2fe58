//! Laws of payments and reversals. Each function does nothing: its contract is the law.
ghost use Rattle.gw_owes.specs.PaymentExample.{ExampleReportsOfOpen};
ghost use Rattle.gw_owes.specs.PaymentLaws.{ApprovalIsKept, DeclineIsKept, EachAcceptedBegins, EachAskedBegins, EachAskedSendsNoTerminal, EachBegunIsReversed, EachBegunIsServed, EachIntentIsAsked, EachRecordIsOfAnEnd, EachTillHasItsOutcomeKept, EachTransactionIsKeptFirst, EachNextIsReversed, EachNextIsServed, KeyOfDayIsNotAllowed, NotAboveIsSetAside, OnlyAskedBegins, RepeatBeginsNothing, ReportedApprovalIsKept, ReportedDeclineIsKept, UnclearKeepsNothing, UnperformedIsAborted};

/// A payment and a reversal begin only with their Intent kept first, in the next slot, with the key of the request and the terminal's
/// last trace number: a payment with the amount that is asked and the terminal's currency, a reversal with the amount, the currency
/// and the slot of its original; and where an Intent is kept the terminal is asked next, to reverse by the original's receipt number.
/// A request of a till that is there, whose steps come to the last one, begins so at the terminal that its POIID names, and gets no
/// reply yet. So does one that has waited for its terminal, where it is the first once that is ready, and its steps that are asked again
/// don't refuse it.
pub fn law_payment_begins()
    ensures kept_first { EachTransactionIsKeptFirst }
    ensures asked { EachIntentIsAsked }
    ensures begins { EachAcceptedBegins }
    ensures served { EachBegunIsServed }
    ensures reversed { EachBegunIsReversed }
    ensures next_served { EachNextIsServed }
    ensures next_reversed { EachNextIsReversed }
{}

/// A payment or a reversal ends only with its Outcome kept before its till gets the reply, also where a report resolves it: on its way
/// its till gets device requests alone. An approval keeps the figures that the terminal reported, where its trace number is above the
/// one before; else nothing is kept, and the terminal is set aside. A decline keeps the condition of its code. An unclear end keeps
/// nothing: the connection is cut, and the key stays open. Else a message of a terminal keeps only the Settled of an end of day, before
/// its till gets the reply.
pub fn law_payment_ends()
    ensures reply { EachTillHasItsOutcomeKept }
    ensures kept { EachRecordIsOfAnEnd }
    ensures approved { ApprovalIsKept }
    ensures aside { NotAboveIsSetAside }
    ensures declined { DeclineIsKept }
    ensures unclear { UnclearKeepsNothing }
{}

/// A payment or a reversal that is open is resolved by the terminal's report of its last transaction, in whatever run, with its Outcome
/// kept before its till gets the reply, where it is there. A trace number above the one before is that of its own end: an approval keeps
/// the figures that are reported, and a decline the condition of its code. Where it is still the one before, the terminal hasn't carried
/// it out, and it is `Aborted`, whatever the last transaction was. (That the figures have the reported trace number is `law_meanings`.
/// One below sets the terminal aside: `law_set_aside`.)
pub fn law_open_reports()
    ensures approved { ReportedApprovalIsKept }
    ensures declined { ReportedDeclineIsKept }
    ensures unperformed { UnperformedIsAborted }
    ensures examples { ExampleReportsOfOpen }
{}

/// A request on a key that is on record asks no terminal: what a till asks sends none anything, and begins a payment, a reversal or a
/// reconciliation, at the terminal that its POIID names, or joins those that wait for that, only where its key is unknown, doesn't wait and
/// isn't that of the end of day that is served there. An Abort begins nothing, but may stop what is served under the key that it names, or
/// takes out what waits under it; a Display, which asks for no key, may begin; a Login and a Logout have an item of their own
/// (`law_sessions`). No item but what a till asks brings another, unless it refuses what has waited: then the next one is looked at. A
/// payment or a reversal under the key of the end of day that is served isn't allowed.
pub fn law_repeats()
    ensures repeat { RepeatBeginsNothing }
    ensures sends { EachAskedSendsNoTerminal }
    ensures begins { EachAskedBegins }
    ensures others { OnlyAskedBegins }
    ensures of_day { KeyOfDayIsNotAllowed }
{}
