//! Laws of Displays. Each function does nothing: its contract is the law.
ghost use Rattle.gw_owes.specs.DisplayLaws.{DeclinedIsNotShown, DoneIsShown, EachBegunIsShown, EachDisplayIsReplied, LostIsNotShown, NackIsNeverDone, NoDisplayIsStopped, UnclearIsCut};

/// A Display is refused where its POIID isn't configured, where no output is for the customer's display, and where its terminal isn't
/// linked, not yet ready, set aside or busy; each output has the reason as its result. Else the terminal is asked to show the first
/// output for the customer's display: its first eight texts, of each of which the first 40 characters. Nothing is kept.
///
/// Once an acknowledgement comes, which may be the late one of a stop before, that output is shown, and where it is declined, it has the
/// condition of the code; each other output isn't shown. Then the terminal is ready as before. Where the end is unclear the connection
/// is cut, and once the link is lost no output is shown. A refusal is never taken for an acknowledgement. The till gets the results where
/// some output asks for a response. No display is ever stopped.
pub fn law_displays()
    ensures replied { EachDisplayIsReplied }
    ensures begins { EachBegunIsShown }
    ensures done { DoneIsShown }
    ensures declined { DeclinedIsNotShown }
    ensures unclear { UnclearIsCut }
    ensures lost { LostIsNotShown }
    ensures refused { NackIsNeverDone }
    ensures not_stopped { NoDisplayIsStopped }
{}
