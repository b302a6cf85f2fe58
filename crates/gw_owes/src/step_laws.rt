//! Laws of the steps of a request. Each function does nothing: its contract is the law.
ghost use Rattle.gw_owes.specs.StepLaws.{EachOnRecordIsReplied, EachServiceHasSteps, OnRecordBeginsNothing, RecordsAloneReply, StatusRepeatsReply};

/// A Payment, a Reversal and a Reconciliation get the reply of the steps. Where the key is on record that is the kept result body,
/// `InProgress` or `NotAllowed`, by what the records have; it is the same whatever else is known and whichever terminal is named,
/// and nothing begins. A TransactionStatus that names the key repeats header and result body of such a reply, where the request is
/// finished.
pub fn law_on_record()
    ensures steps { EachServiceHasSteps }
    ensures replied { EachOnRecordIsReplied }
    ensures alone { RecordsAloneReply }
    ensures nothing { OnRecordBeginsNothing }
    ensures repeated { StatusRepeatsReply }
{}
