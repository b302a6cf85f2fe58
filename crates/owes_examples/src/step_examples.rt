//! Examples of the steps of a request.
ghost use Rattle.owes_examples.specs.StepExample.{ExampleAbort, ExampleBeginning, ExampleDayServed, ExampleDeclinedAgain, ExampleLastStatus, ExampleNewKey, ExampleNewReconciliation, ExampleOpenAgain, ExampleOtherContent, ExamplePaymentAgain, ExampleReconciliationAgain, ExampleReversalAgain, ExampleRoom, ExampleStatus, ExampleUnavailable, ExampleUsedUp};

/// Examples, which are computed: requests on keys that are on record, with the same content and another, finished, declined and
/// open; a TransactionStatus with and without a reference; an Abort; the reasons for which a new payment is refused, with their
/// order; what begins; reconciliations of each type on a new key; and what tills get while an end of day is served.
pub fn law_step_examples()
    ensures payment { ExamplePaymentAgain }
    ensures other { ExampleOtherContent }
    ensures open_key { ExampleOpenAgain }
    ensures declined { ExampleDeclinedAgain }
    ensures reversal { ExampleReversalAgain }
    ensures reconciliation { ExampleReconciliationAgain }
    ensures status { ExampleStatus }
    ensures last { ExampleLastStatus }
    ensures abort { ExampleAbort }
    ensures new_key { ExampleNewKey }
    ensures used_up { ExampleUsedUp }
    ensures room { ExampleRoom }
    ensures unavailable { ExampleUnavailable }
    ensures begins { ExampleBeginning }
    ensures reconciled { ExampleNewReconciliation }
    ensures day { ExampleDayServed }
{}
