//! Laws of the requests that wait for a terminal.
ghost use Rattle.gw_owes.specs.WaitingCauses.{EachFirstIsRefusedExactly, EachWaitingReplyHasCause};
ghost use Rattle.gw_owes.specs.WaitingLaws.{EachFirstIsNext, EachGoneKeepsWaits, EachLinkKeepsWaits, EachMomentKeepsWaits, EachNextKeepsInOrder, EachRowKeepsWaits, EachTakesItsOwn, EachThatMayJoins, NewCoreHasNoneWaiting, StatusOfWaitingIsInProgress, WaitingKeyIsReplied};

/// A request that may waits once, as the last for its terminal, under a key that is unknown; a repeat and a TransactionStatus get that
/// it is in progress. At a terminal that is ready the first is begun or refused. An Abort takes out the one that it names, and a deadline its own.
pub fn law_waits()
    ensures joins { EachThatMayJoins }
    ensures again { WaitingKeyIsReplied }
    ensures status { StatusOfWaitingIsInProgress }
    ensures taken { EachTakesItsOwn }
    ensures first { EachFirstIsNext }
    ensures keeps { EachRowKeepsWaits }
    ensures links { EachLinkKeepsWaits }
    ensures gone { EachGoneKeepsWaits }
    ensures moments { EachMomentKeepsWaits }
    ensures new { NewCoreHasNoneWaiting }
    ensures order { EachNextKeepsInOrder }
{
    gw_ledger::law_next();
    gw_ledger::law_open();
    gw_ledger::law_within();
    gw_ledger::law_named();
    gw_ledger::law_fits();
}

/// What a till gets for a request as it leaves its queue without being begun is always a Failure, the only call, and each has its cause:
/// at the beginning of its queue, once its terminal is ready, `NotFound` exactly where it is a reversal whose original isn't there,
/// `NotAllowed` exactly where that is there and may not be reversed, and `UnavailableService` exactly where no trace number is left for it;
/// and `Aborted` where a till aborts it, or its deadline has come.
pub fn law_waiting_causes()
    ensures first { EachFirstIsRefusedExactly }
    ensures replies { EachWaitingReplyHasCause }
{}
