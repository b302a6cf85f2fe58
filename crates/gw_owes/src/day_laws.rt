//! Laws of reconciliations. Each function does nothing: its contract is the law.
ghost use Rattle.gw_owes.specs.DayLaws.{DeclinedKeepsNothing, DoneIsSettled, EachDayBegins, EachReconciliationBegins, EachSaleIsSettled, EachServedDayIsReplied, EachSettledHasCause, LostKeepsNothing, NextHasNoTotals, OtherPeriodIsUnserved, SettledIsNotReversed, SettledIsRepliedAgain, UnclearDayIsCut};
ghost use Rattle.gw_owes.specs.DayRefusals.{EachDayCauseIsReplied, EachDayFailureHasCause, EachReconciliationIsReplied, OnlyMayBegins};

/// A Reconciliation of the till's own is settled at once, whatever its terminal does: its Settled is kept, with its key and in the
/// terminal's currency, and only then its till gets a Success with the totals; nothing that is remembered changes. An end of day is asked
/// of a terminal that is ready, with `06 50`, and nothing is kept. Once the terminal is done the Settled is kept, and then the till gets the
/// totals, where it is there; where it is declined the till gets a Failure for the code, and nothing is kept. After both the terminal is
/// ready as before. Where its end is unclear the connection is cut, and once the link is lost the till gets `UnavailableDevice`; nothing
/// is kept then either. The two other types aren't served.
///
/// While an end of day is served, the same request is in progress, and so is it for a TransactionStatus; one on its key that asks for
/// anything else isn't allowed, and an Abort of it gets no reply. Once the Settled is kept the same request gets the same Success
/// again, whatever came after.
///
/// The totals are those of the records since the last Settled of the POIID, so that right after one there are none. A payment that
/// ended before a Settled of its POIID can't be reversed any more. No other item keeps a Settled.
pub fn law_days()
    ensures begins { EachReconciliationBegins }
    ensures unserved { OtherPeriodIsUnserved }
    ensures sale { EachSaleIsSettled }
    ensures day { EachDayBegins }
    ensures done { DoneIsSettled }
    ensures declined { DeclinedKeepsNothing }
    ensures unclear { UnclearDayIsCut }
    ensures lost { LostKeepsNothing }
    ensures served { EachServedDayIsReplied }
    ensures again { SettledIsRepliedAgain }
    ensures totals { NextHasNoTotals }
    ensures settled { SettledIsNotReversed }
    ensures kept_only { EachSettledHasCause }
{
    gw_ledger::law_named();
    gw_ledger::law_settled();
    gw_ledger::law_settling();
}

/// A Reconciliation begins, or waits, or gets its reply again, or fails, and it fails with a condition exactly where the condition's cause
/// holds. The causes have this order, and each says that none before it holds: its key is on record with other content; it waits or is
/// that of the end of day that is served, which is in progress where the same is asked for again, and isn't allowed else; its POIID names
/// no terminal; its till is logged out there; its type isn't served; there is no room; and of an end of day, the terminal takes no request,
/// or serves another and as many requests wait for it as may. It begins only where none of them holds, and an end of day only at a
/// terminal that is ready; it waits only where none holds, as an end of day at a terminal that serves another.
pub fn law_day_refusals()
    ensures replied { EachReconciliationIsReplied }
    ensures cause { EachDayCauseIsReplied }
    ensures only { EachDayFailureHasCause }
    ensures begins { OnlyMayBegins }
{}
