//! Examples of what items of a round owe, which are computed: of terminals, of requests and their steps, of payments, reversals and Aborts,
//! of reconciliations, displays and device requests, of Logins and Logouts, of requests that wait, and of records. Each function does nothing: its contract is
//! the law.
#![tactic(auto)]

mod step_examples;
mod waiting_examples;

ghost use Rattle.owes_examples.specs.AbortExample.{ExampleAbortUnserved, ExampleDayAborted, ExampleDisplayAborted, ExampleEnquiredAfterStop, ExampleLateAcknowledgement, ExampleLateRefusal, ExampleStopSent, ExampleStoppedEnds};
ghost use Rattle.owes_examples.specs.DayExample.{ExampleBetween, ExampleDayAgain, ExampleDayPremises, ExampleDays, ExampleSales, ExampleSettledDay, ExampleSettledPayment};
ghost use Rattle.owes_examples.specs.DeviceExample.{ExampleAlongRun, ExampleDeviceRequests, ExampleNoRequests};
ghost use Rattle.owes_examples.specs.DisplayExample.{ExampleDisplayEnds, ExampleDisplayPremises, ExampleResults, ExampleShownLines};
ghost use Rattle.owes_examples.specs.PaymentExample.{ExampleApproved, ExampleBesideDay, ExampleCommandFails, ExampleDeclined, ExampleNotAbove, ExamplePaymentAccepted, ExamplePaymentBegins, ExampleRoom, ExampleSecondRequest, ExampleUnclearEnd};
ghost use Rattle.owes_examples.specs.RecordExample.{ExampleIntentKept, ExampleKeyStaysOpen, ExampleOutcomeKept, ExampleRequestBegins, ExampleReversalKept, ExampleSettledKept, ExampleStopKeepsNothing};
ghost use Rattle.owes_examples.specs.ReversalExample.{ExampleReversalBegins, ExampleReversalEnds, ExampleReversalRefused, ExampleReversalRepeated, ExampleReversalReported, ExampleReversalUnserved};
ghost use Rattle.owes_examples.specs.ReversalPremises.{ExampleIrreversible, ExampleMayStop, ExampleReversalAccepted, ExampleReversalCauses, ExampleReversalMeans, ExampleReversalWaits};
ghost use Rattle.owes_examples.specs.SessionExample.{ExampleLogoutBesideDay, ExampleManyPairs, ExampleOtherPairs, ExampleSessionAlong, ExampleSessionPremises, ExampleSessions, ExampleUnderLogout};
ghost use Rattle.owes_examples.specs.TerminalExample.{ExampleAside, ExampleBecomesReady, ExampleComparedReports, ExampleDayLost, ExampleDayStopped, ExampleDiagnosis, ExampleDisplay, ExampleDisplayLost, ExampleEndOfDay, ExampleEnquiryFails, ExampleFailedSend, ExampleForeignCommand, ExampleLateStop, ExampleLinkFails, ExampleLostServing, ExampleManyTerminals, ExampleOutputs, ExampleOutside, ExampleRegistrationFails, ExampleReportsLast, ExampleSilence, ExampleStop, ExampleStrayMessages, ExampleUnlinked};

pub use step_examples::law_step_examples;
pub use waiting_examples::law_waiting_examples;

/// Examples, which are computed: a terminal that becomes ready, with and without a last transaction; registrations and
/// enquiries that fail, and links; silence, and a message at the deadline; messages where no dialogue runs, and a
/// command of the terminal's own; bytes outside the grammar; sends that fail; terminals that aren't linked, or are set aside;
/// stops, and the late Nack of a stop; reports beside the records; 32 terminals, the most that there may be; what a Diagnosis gets;
/// an end of day and a display that begin, are done, declined, stopped and lost; what a Display and a Print get that don't begin; and
/// what is owed where the link of a terminal that serves something is lost.
pub fn law_terminal_row_examples()
    ensures becomes_ready { ExampleBecomesReady }
    ensures reports_last { ExampleReportsLast }
    ensures registration { ExampleRegistrationFails }
    ensures enquiry { ExampleEnquiryFails }
    ensures link { ExampleLinkFails }
    ensures silence { ExampleSilence }
    ensures stray { ExampleStrayMessages }
    ensures foreign { ExampleForeignCommand }
    ensures outside { ExampleOutside }
    ensures failed_send { ExampleFailedSend }
    ensures unlinked { ExampleUnlinked }
    ensures aside { ExampleAside }
    ensures stop { ExampleStop }
    ensures late_stop { ExampleLateStop }
    ensures reports { ExampleComparedReports }
    ensures many { ExampleManyTerminals }
    ensures diagnosis { ExampleDiagnosis }
    ensures end_of_day { ExampleEndOfDay }
    ensures day_lost { ExampleDayLost }
    ensures day_stopped { ExampleDayStopped }
    ensures display { ExampleDisplay }
    ensures display_lost { ExampleDisplayLost }
    ensures outputs { ExampleOutputs }
    ensures lost_serving { ExampleLostServing }
{}

/// Examples, which are computed: a payment of 10.99 that begins, and one whose command can't be sent; approvals, of all of it, of
/// 9.00, with an unknown field, and for a till that is gone; one with a trace number that isn't above the one before; ends that are
/// unclear; declines; repeats, a second payment, and one with too few slots; and payments while an end of day is served.
pub fn law_payment_examples()
    ensures begins { ExamplePaymentBegins }
    ensures accepted { ExamplePaymentAccepted }
    ensures command_fails { ExampleCommandFails }
    ensures approved { ExampleApproved }
    ensures not_above { ExampleNotAbove }
    ensures unclear { ExampleUnclearEnd }
    ensures declined { ExampleDeclined }
    ensures second { ExampleSecondRequest }
    ensures room { ExampleRoom }
    ensures day { ExampleBesideDay }
{}

/// Examples, which are computed: the reversal of a payment of 10.99 that begins; its ends; repeats, and a TransactionStatus; the
/// reasons for which one is refused, with their order; and reports of the terminal while it is open.
pub fn law_reversal_examples()
    ensures begins { ExampleReversalBegins }
    ensures ends { ExampleReversalEnds }
    ensures again { ExampleReversalRepeated }
    ensures refused { ExampleReversalRefused }
    ensures unserved { ExampleReversalUnserved }
    ensures reported { ExampleReversalReported }
{}

/// Examples, which are computed, in which the premises of these laws hold: a reversal that may begin, and why others may not; what ends
/// one that is served; each cause of a refusal, and one that waits; and dialogues that are to stop.
pub fn law_reversal_premises()
    ensures accepted { ExampleReversalAccepted }
    ensures irreversible { ExampleIrreversible }
    ensures ends { ExampleReversalMeans }
    ensures causes { ExampleReversalCauses }
    ensures waits { ExampleReversalWaits }
    ensures stops { ExampleMayStop }
{}

/// Examples, which are computed: Aborts of keys that aren't served; the stop, before and after the command is acknowledged, and
/// once only; ends after it and before it; the same of an end of day, and an Abort of a display; and its late Ack or Nack in a second
/// payment: a refusal, after which the enquiry finds the truth, and an acknowledgement.
pub fn law_abort_examples()
    ensures unserved { ExampleAbortUnserved }
    ensures sent { ExampleStopSent }
    ensures ends { ExampleStoppedEnds }
    ensures of_day { ExampleDayAborted }
    ensures display { ExampleDisplayAborted }
    ensures late_refusal { ExampleLateRefusal }
    ensures enquired { ExampleEnquiredAfterStop }
    ensures late_acknowledgement { ExampleLateAcknowledgement }
{}

/// Examples, which are computed: a till's own reconciliation in several standings of its terminal, also twice; an end of day that is
/// done, declined and lost; requests on its key while it is served and after; a payment that is settled; a till's own while an end of
/// day is served, and a payment that is begun before a Settled and approved after it; and premises of these laws, which hold, also of
/// records that are in order.
pub fn law_day_examples()
    ensures sales { ExampleSales }
    ensures days { ExampleDays }
    ensures again { ExampleDayAgain }
    ensures settled { ExampleSettledPayment }
    ensures between { ExampleBetween }
    ensures premises { ExampleDayPremises }
    ensures settled_day { ExampleSettledDay }
{
    gw_ledger::law_examples();
}

/// Examples, which are computed: the results of outputs for several devices, the lines that are shown of long texts and of many, the
/// ends of a display, and premises of these laws, which hold.
pub fn law_display_examples()
    ensures results { ExampleResults }
    ensures lines { ExampleShownLines }
    ensures ends { ExampleDisplayEnds }
    ensures premises { ExampleDisplayPremises }
{}

/// Examples, which are computed: device requests to the till of a payment, a reversal and an end of day, with their numbers, also after
/// the greatest; none where the till is gone, or where the terminal is ready or enquired; and the number along a run.
pub fn law_device_examples()
    ensures requests { ExampleDeviceRequests }
    ensures none { ExampleNoRequests }
    ensures along { ExampleAlongRun }
{}

/// Examples, which are computed: a Logout, the payment that fails after it, and the Login after which it begins, also where a Logout
/// comes twice; another SaleID, and another POIID; a POIID that isn't configured; 1,024 pairs that are logged out, one more, and one of
/// them again; repeats and other requests of a till that is logged out, also while an end of day is served; and premises of these laws,
/// which hold.
pub fn law_session_examples()
    ensures sessions { ExampleSessions }
    ensures others { ExampleOtherPairs }
    ensures many { ExampleManyPairs }
    ensures under_logout { ExampleUnderLogout }
    ensures beside_day { ExampleLogoutBesideDay }
    ensures along { ExampleSessionAlong }
    ensures premises { ExampleSessionPremises }
{}

/// Examples of these laws, which are computed: their premises hold of a terminal that is ready and begins a payment or a reversal, and
/// of one that serves a payment and ends it, clearly or not, or is to stop it, and of one that ends an end of day.
pub fn law_record_examples()
    ensures begins { ExampleRequestBegins }
    ensures intent { ExampleIntentKept }
    ensures outcome { ExampleOutcomeKept }
    ensures open_key { ExampleKeyStaysOpen }
    ensures reversal { ExampleReversalKept }
    ensures stop { ExampleStopKeepsNothing }
    ensures settled { ExampleSettledKept }
{
    gw_owes::law_records();
    gw_ledger::law_examples();
}
