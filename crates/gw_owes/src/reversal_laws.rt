//! Laws of reversals and Aborts. Each function does nothing: its contract is the law.
ghost use Rattle.gw_owes.specs.AbortLaws.{AbortCodeIsKept, AbortCodeOfDayIsReplied, AckOrNackEndsNothing, AskedIsWished, BegunIsStopped, DisplayServesNoKey, EachAbortEndsNothing, EachAbortGetsRejectOrNothing, EachMalformedAbortGetsReject, EachStopIsTheFirst, LateRefusalDeclinesNothing, ServedIsToStop, StopEndsNothing, StoppedIsNotStoppedAgain, UnservedStopsNothing, WaitingIsToBeTakenOut, WishedIsSent};
ghost use Rattle.gw_owes.specs.ReversalLaws.{EachCauseIsReplied, EachFailureHasItsCause, EachReversalBeginsOrIsReplied, IrreversibleIsNotAllowed, ReportedDeclineIsReplied, ReportedReversalIsReplied, ReversalApprovalIsReplied, ReversalDeclineIsReplied, ReversibleBegins, UnnamedIsNotFound, UnperformedReversalIsReplied};

/// A reversal is served as a payment is (`law_payment_begins`, `law_payment_ends`, `law_open_reports`), and its till gets the numbers and
/// the amount of the Outcome that is kept, which are those that the terminal reported, whatever amount was asked: as it is approved, and
/// as a later report approves it. Where it is declined, also as a later report says, its till gets the condition of the code, and where
/// nothing came of it `Aborted`.
pub fn law_reversals()
    ensures approved { ReversalApprovalIsReplied }
    ensures declined { ReversalDeclineIsReplied }
    ensures reported { ReportedReversalIsReplied }
    ensures reported_decline { ReportedDeclineIsReplied }
    ensures unperformed { UnperformedReversalIsReplied }
{}

/// A reversal begins, or waits, or gets its reply again, or is refused, and it fails with a condition exactly where the condition's cause
/// holds. The causes have this order, and each says that none before it holds: its key is on record, and open, or with other content; it
/// waits or is that of the end of day that is served, and the same is asked for, or anything else; its POIID names no terminal; its till
/// is logged out there; its text names no entry of that terminal; the entry isn't a payment, approved with an amount that is the whole of
/// what is asked, neither reversed nor settled; no trace number is left, or no room; the terminal takes no request; it serves another, and
/// as many requests wait for it as may. It begins exactly where none of them holds and the terminal is ready, and waits where none holds
/// and the terminal serves another.
pub fn law_refusals()
    ensures cause { EachReversalBeginsOrIsReplied }
    ensures refused { EachCauseIsReplied }
    ensures only { EachFailureHasItsCause }
    ensures not_found { UnnamedIsNotFound }
    ensures not_allowed { IrreversibleIsNotAllowed }
    ensures begins { ReversibleBegins }
{}

/// An Abort gets the event `Reject` where its body is malformed, or the key that it names neither is open nor waits, nor is that of an end
/// of day that is served; else it gets no reply of its own. What waits under the key is taken out. Where a terminal serves the key, `06 B0` is sent to it: at once where the command
/// is acknowledged, and else as soon as it is; once a dialogue, however often the key is aborted. So a payment, a reversal and an end of
/// day are stopped, and never a display. A stop ends no key, keeps no record and sends no till anything, and nor does the terminal's Ack
/// or Nack of it in its own dialogue: the key ends as the terminal says, and an abort with the code 6C is `Aborted` after the stop, and
/// else `Cancel`. The terminal may acknowledge or refuse the stop late: a refusal that may be of an earlier command of its link declines
/// nothing.
pub fn law_aborts()
    ensures reject { EachAbortGetsRejectOrNothing }
    ensures malformed { EachMalformedAbortGetsReject }
    ensures waiting { WaitingIsToBeTakenOut }
    ensures served { ServedIsToStop }
    ensures unserved { UnservedStopsNothing }
    ensures display { DisplayServesNoKey }
    ensures stops { BegunIsStopped }
    ensures wished { AskedIsWished }
    ensures then_sent { WishedIsSent }
    ensures again { StoppedIsNotStoppedAgain }
    ensures once { EachStopIsTheFirst }
    ensures ends_nothing { StopEndsNothing }
    ensures asked_ends_nothing { EachAbortEndsNothing }
    ensures refused { AckOrNackEndsNothing }
    ensures aborted { AbortCodeIsKept }
    ensures aborted_day { AbortCodeOfDayIsReplied }
    ensures late { LateRefusalDeclinesNothing }
{}
