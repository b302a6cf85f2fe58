//! Laws of lawful logs on the requests that wait for a terminal. Each function does nothing: its contract is the law.
ghost use Rattle.gw_rules.specs.QueueLaws.{EachLogHasWaitsInOrder, EachMoveChangesQueues, EachMoveLooksInOrder, EachQueueIsDueInOrder, EachQueueIsFirstInFirstOut, EachWaitingIsThere, NoneIsOverdue, OutsideLeavesQueues, ReadyHasNoQueue};

/// Along each lawful course what waits is in order, and its till is there, or has just closed its connection. A terminal's queue changes
/// only as a request joins it as the last, as the first of it is begun or refused, as one leaves it that a till aborts or whose deadline
/// has come, as those of a till leave it that is gone, and as a run begins or ends. An Abort takes out the one that it names, a deadline
/// that has come its own, and a till that is gone those of it. So it is first in, first out: those that are begun or refused at its
/// beginning, and then those that wait, come in the order in which they joined it. Where the next poll may come nobody waits for a terminal
/// that is ready. With each poll, and with its event, the deadlines of all that wait are to be looked at, the earliest first, and those of
/// one deadline in the order in which they came; then they are looked at in this order, and where the next poll may come nothing waits
/// whose deadline has come. Bytes that are outside leave each queue as it is, but for the requests of a till that is cut for them.
pub fn law_queues()
    ensures order { EachLogHasWaitsInOrder }
    ensures there { EachWaitingIsThere }
    ensures changes { EachMoveChangesQueues }
    ensures first { EachQueueIsFirstInFirstOut }
    ensures ready { ReadyHasNoQueue }
    ensures due_order { EachQueueIsDueInOrder }
    ensures looks { EachMoveLooksInOrder }
    ensures overdue { NoneIsOverdue }
    ensures outside { OutsideLeavesQueues }
{
    gw_owes::law_records();
    gw_owes::law_waits();
}
