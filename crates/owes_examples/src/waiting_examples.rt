//! Examples of the requests that wait for a terminal.
ghost use Rattle.owes_examples.specs.WaitingExample.{ExampleBusyQueue, ExampleDeadline, ExampleDeadlineOrder, ExampleLogoutMeanwhile, ExampleOtherAborts, ExampleQueue, ExampleQueueRoom, ExampleRefusedInOneGo, ExampleReversalRefused, ExampleTillTakesItsOwn, ExampleWaitingAgain, ExampleWaitingPremises};

/// Examples, which are computed: payments that wait, one of which is aborted, and the next one's beginning once its terminal is ready; a
/// queue that is full, and too few slots; a repeat of one that waits, and other requests under its key; deadlines, in their order; a till
/// that goes, another that aborts, and a Logout meanwhile; those that are refused once their terminal is ready; and premises of these
/// laws, which hold.
pub fn law_waiting_examples()
    ensures queue { ExampleQueue }
    ensures busy { ExampleBusyQueue }
    ensures room { ExampleQueueRoom }
    ensures again { ExampleWaitingAgain }
    ensures too_long { ExampleDeadline }
    ensures deadlines { ExampleDeadlineOrder }
    ensures gone { ExampleTillTakesItsOwn }
    ensures other_till { ExampleOtherAborts }
    ensures logout { ExampleLogoutMeanwhile }
    ensures one_go { ExampleRefusedInOneGo }
    ensures reversals { ExampleReversalRefused }
    ensures premises { ExampleWaitingPremises }
{
    gw_owes::law_waits();
    gw_ledger::law_examples();
}
