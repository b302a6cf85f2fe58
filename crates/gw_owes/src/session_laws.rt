//! Laws of Login and Logout. Each function does nothing: its contract is the law.
ghost use Rattle.gw_owes.specs.SessionLaws.{EachLinkKeepsPairs, EachOtherItemKeepsPairs, EachOtherPairStays, EachServedSessionSucceeds, EachSessionIsReplied, EachStepFollowsLast, EachStepKeepsFew, LoggedOutFails, OnlyLoggedOutFails};

/// A Login or a Logout fails where its POIID isn't configured, and a Logout where its SaleID isn't logged out there while 1,024 pairs of a
/// SaleID and a POIID are. Else it succeeds: its till gets a Success, and after a Logout the SaleID is logged out at the POIID, after a
/// Login it isn't; another pair stays as it was, and nothing else changes. Nothing but these changes who is logged out. So a SaleID is
/// logged out at a POIID exactly where the last Login or Logout of both in the run that got a Success is a Logout, and no more than 1,024
/// pairs ever are.
///
/// A Payment, a Reversal or a Reconciliation of a till that is logged out at its POIID, which is configured, fails with `LoggedOut` where
/// its key isn't on record, and isn't that of the end of day that the terminal serves; and no other request does.
pub fn law_sessions()
    ensures replied { EachSessionIsReplied }
    ensures succeeds { EachServedSessionSucceeds }
    ensures apart { EachOtherPairStays }
    ensures fails { LoggedOutFails }
    ensures only { OnlyLoggedOutFails }
    ensures last { EachStepFollowsLast }
    ensures few { EachStepKeepsFew }
    ensures unchanged { EachOtherItemKeepsPairs }
    ensures links { EachLinkKeepsPairs }
{}
