//! Examples of lawful logs and courses: requests of tills, runs, ways of a terminal to ready, payments, ends of day, a display, a till that
//! closes, a request that waits, malformed bytes, and cuts.
#![tactic(auto)]

ghost use Rattle.gw_rules.specs.CauseExample.{OutsideIsCause, TooLongIsCut};
ghost use Rattle.gw_rules.specs.Example.{StatusIsLawful};
ghost use Rattle.gw_rules.specs.PaymentLogExample.{ResolvedIsLawful};
ghost use Rattle.gw_rules.specs.RecoveryLogExample.{RecoveryIsLawful};
ghost use Rattle.gw_rules.specs.TerminalLogExample.{ReadyIsLawful};
ghost use Rattle.rule_examples.specs.CauseExample.{OutsideIsCut, PollBeforeOutsideCut, PollBeforeTooLongCut, SplitReport, TooLongIsCause};
ghost use Rattle.rule_examples.specs.CutCauseExample.{ExampleDeclinedCut, ExampleFailedCut, ExampleLateCut, ExampleOutsideCut, ExampleTooLongCut, ExampleUnclearCut};
ghost use Rattle.rule_examples.specs.CutExample.{BothAreCut, BothAreLinkedAgain, EnquiryUnacknowledged, OtherIsNotCutFirst, PollBeforeOtherCut, UnacknowledgedDoneIsCut};
ghost use Rattle.rule_examples.specs.DayLogExample.{DayIsLawful, DisplayIsLawful, LostDayIsLawful};
ghost use Rattle.rule_examples.specs.DoneExample.{ExampleDone};
ghost use Rattle.rule_examples.specs.Example.{BadFrameIsLawful, CrashLeavesNoOther, CrashedIsLawful, CrowdedIsLawful, DiskFailureEnds, FailedSendIsLawful, GateEndsLooking, LooksMayFail, NoRunWhereNotOpened, NothingToLookAt, NothingToLookAtLater, PollBeforeCut, PollBeforeReply, PollEndsLooking, PollWhileCrowded, RefusedIsNotPolled, RestartedIsLawful, SilentIsLawful, UnaskedReply};
ghost use Rattle.rule_examples.specs.MalformedExample.{ApduIsHarmless, FrameIsHarmless, MessageIsHarmless, TooLongIsHarmless};
ghost use Rattle.rule_examples.specs.OutsideItemExample.{ApduLeavesOthers, CrowdedIsCut, FrameLeavesOther, GoneTillLeavesAll, MessageLeavesAll, TooLongLeavesOthers};
ghost use Rattle.rule_examples.specs.PaymentLogExample.{BegunIsServedOpen, PaidHasNoneOpen, PaymentIsLawful, PaymentIsSilent};
ghost use Rattle.rule_examples.specs.QueueExample.{ExampleQueues};
ghost use Rattle.rule_examples.specs.RecoveryLogExample.{OpenIsReported};
ghost use Rattle.rule_examples.specs.RowExample.{BothAreItems, ClosedGateDrops, FailedSendCutsLink, FailedSyncCrashes, GateIsInFlight, GoneTillIsForgotten, LinkIsDueAgain, LinkRegisters, LostEndOfDayReplies, LostIsDue, LostTransactionKeepsAsker, OpenGateKeeps, PollBeforeUnframedCut, RowItemsComeFirst, SendingsAreSpelled, StartLeavesFlight, SyncKeeps, UnframedIsLawful, UnlinkedIsLawful, WaitsByDeadline};
ghost use Rattle.rule_examples.specs.TerminalLogExample.{DeclinedIsLawful, DoneIsEnquired, DoneThenSilentIsCut, DueAgainIsLawful, EnquiryAfterCut, EnquiryBeforeRegistration, LinkTooEarly, PollBeforeEnquiry, PollBeforeLink, PollBeforeSilentCut, SilentEnquiryIsLawful, SilentRegistrationIsLawful, UnacknowledgedIsLawful, UnfinishedIsCut};
ghost use Rattle.rule_examples.specs.TillLogExample.{ClosedTillIsLawful, UnsentDayIsLawful};

/// A till asks for an end of day, of which nothing is kept before the terminal has completed it; what the terminal shows on its way is
/// shown at the till, the Settled is kept after the records before it, and then the till gets their totals.
/// Where the terminal's link is lost before that, the till gets a Failure and no Settled is kept; and so where the command can't be sent,
/// as the terminal is cut then. A display is done with the acknowledgement of its command, and then its till gets the results of its
/// outputs.
pub fn law_day_log_examples()
    ensures done_example { DayIsLawful }
    ensures lost_example { LostDayIsLawful }
    ensures unsent_example { UnsentDayIsLawful }
    ensures display_example { DisplayIsLawful }
{}

/// A till closes in the middle of the device requests of its payment: it gets none after, and no other till does; the payment ends and
/// its Outcome is kept, and nobody gets a reply.
pub fn law_closed_till_example()
    ensures closed_example { ClosedTillIsLawful }
{}

/// An end of day joins the queue of a terminal that serves a payment, is there one second later, and is refused at its deadline.
pub fn law_queue_example()
    ensures example { ExampleQueues }
{}

/// Malformed bytes change no books: an object without members gets its reject, and its till stays; a till whose bytes begin no frame is cut; and so
/// is a terminal that says a truncated Status, and one that begins an APDU above the limit. Nothing else changes.
pub fn law_malformed_examples()
    ensures message { MessageIsHarmless }
    ensures frame { FrameIsHarmless }
    ensures outside { ApduIsHarmless }
    ensures too_long { TooLongIsHarmless }
{}

/// Where an Intent is kept, and a request of each of two tills waits, bytes outside the grammars leave the Intent, and the request of the other
/// till. A till that says an object without members gets its reject, and both requests wait still. Where that can't be sent the till is cut,
/// its own request leaves, and what it said after that isn't read. A till whose bytes begin no frame is cut, and its own request leaves. A
/// terminal that says a truncated Status, and one that begins an APDU above the limit, are cut, and both requests wait. A till that opens
/// while 64 others are there is cut alone.
pub fn law_outside_item_examples()
    ensures message { MessageLeavesAll }
    ensures gone { GoneTillLeavesAll }
    ensures frame { FrameLeavesOther }
    ensures outside { ApduLeavesOthers }
    ensures too_long { TooLongLeavesOthers }
    ensures crowded { CrowdedIsCut }
{}

/// Two terminals whose deadlines come at one moment are both cut then, in the order of the setup: the other not before the first, and
/// no poll comes between. Five seconds later both are due, and are linked and registered in that order again. A terminal to which the
/// acknowledgement that its registration is done can't be sent is cut, and not enquired.
pub fn law_cut_examples()
    ensures both_cut { BothAreCut }
    ensures both_linked { BothAreLinkedAgain }
    ensures order { OtherIsNotCutFirst }
    ensures poll_between { PollBeforeOtherCut }
    ensures unacknowledged { UnacknowledgedDoneIsCut }
    ensures no_enquiry { EnquiryUnacknowledged }
{}

/// A request gets its reply, and nothing is sent and no poll comes instead; where the send of the reply fails, the till is
/// cut; a message may get no reply; a till is cut where bytes that begin no frame come after its request, and where 64 others
/// are there.
pub fn law_till_examples()
    ensures status { StatusIsLawful }
    ensures unasked_reply { UnaskedReply }
    ensures poll_before_reply { PollBeforeReply }
    ensures failed_send { FailedSendIsLawful }
    ensures poll_before_cut { PollBeforeCut }
    ensures silent { SilentIsLawful }
    ensures bad_frame { BadFrameIsLawful }
    ensures crowded { CrowdedIsLawful }
    ensures poll_while_crowded { PollWhileCrowded }
{}

/// A run may begin in the middle of another; a power failure leaves an image of the file and nothing else; a call on the
/// disk fails only where the file is looked at or a sync is owed, and a look may fail whether the file is refused or not,
/// until the first poll or the first gate. A run whose file is refused syncs it and makes no poll. After such a failure nothing comes
/// before a power failure, and where the site can't be opened there is no run.
pub fn law_run_examples()
    ensures restarted { RestartedIsLawful }
    ensures crashed { CrashedIsLawful }
    ensures no_other_file { CrashLeavesNoOther }
    ensures nothing_to_look_at { NothingToLookAt }
    ensures nothing_later { NothingToLookAtLater }
    ensures looks { LooksMayFail }
    ensures poll_ends { PollEndsLooking }
    ensures gate_ends { GateEndsLooking }
    ensures refused { RefusedIsNotPolled }
    ensures disk_failure { DiskFailureEnds }
    ensures not_opened { NoRunWhereNotOpened }
{}

/// A link that can't be made isn't tried again at once, so that one poll follows the other; and a till whose bytes begin no
/// frame is cut before the next. The items of a row come before those that were to come. A link that is owed and made registers the terminal; one that
/// isn't made, is cut after a failed send, or is lost, is due five seconds later. Where it is lost in an end of day the till has
/// its reply, and where it is lost in a payment or a reversal the till is remembered. Each APDU that is heard is three items; how
/// it is acknowledged or refused is spelled. A till that is gone is forgotten, and requests wait by their deadlines.
pub fn law_terminal_examples()
    ensures unlinked { UnlinkedIsLawful }
    ensures unframed { UnframedIsLawful }
    ensures poll_before_cut { PollBeforeUnframedCut }
    ensures row_items { RowItemsComeFirst }
    ensures registers { LinkRegisters }
    ensures due_again { LinkIsDueAgain }
    ensures failed_send { FailedSendCutsLink }
    ensures lost { LostIsDue }
    ensures lost_end_of_day { LostEndOfDayReplies }
    ensures lost_transaction { LostTransactionKeepsAsker }
    ensures heard { BothAreItems }
    ensures sendings { SendingsAreSpelled }
    ensures gone_till { GoneTillIsForgotten }
    ensures waits { WaitsByDeadline }
{}

/// The way of a terminal to ready: its link, its registration, the enquiry, and what that reports. A link that can't be made is
/// tried again five seconds later; a registration that is declined or isn't done in time, and a registration or an enquiry that isn't
/// acknowledged in time, are cut; and where the acknowledgement of an APDU can't be sent, neither it nor the one after it is handled. No poll
/// comes before the link of a terminal that is due, and none is made before it is; nothing but the registration follows a link; no
/// poll comes before a silent terminal is cut at its deadline, or before the enquiry of one whose registration is done; and after a
/// cut nothing is sent to it.
pub fn law_terminal_logs()
    ensures ready { ReadyIsLawful }
    ensures due_again { DueAgainIsLawful }
    ensures declined { DeclinedIsLawful }
    ensures silent_enquiry { SilentEnquiryIsLawful }
    ensures silent_registration { SilentRegistrationIsLawful }
    ensures done { DoneIsEnquired }
    ensures done_then_silent { DoneThenSilentIsCut }
    ensures unfinished { UnfinishedIsCut }
    ensures unacknowledged { UnacknowledgedIsLawful }
    ensures poll_before_silent_cut { PollBeforeSilentCut }
    ensures poll_before_enquiry { PollBeforeEnquiry }
    ensures poll_before_link { PollBeforeLink }
    ensures link_too_early { LinkTooEarly }
    ensures early_enquiry { EnquiryBeforeRegistration }
    ensures sent_after_cut { EnquiryAfterCut }
{}

/// A terminal that has said an APDU outside the grammar, and one that has begun an APDU above the limit, are cut, and no poll comes
/// before; a terminal whose enquiry is ended by the second part of a Completion, with the report that came before, is ready; and one
/// whose registration is ended as done by a part of its Ack and its Completion is enquired.
pub fn law_cause_examples()
    ensures outside { OutsideIsCut }
    ensures outside_cause { OutsideIsCause }
    ensures poll_before_outside { PollBeforeOutsideCut }
    ensures too_long { TooLongIsCut }
    ensures too_long_cause { TooLongIsCause }
    ensures poll_before_too_long { PollBeforeTooLongCut }
    ensures report { SplitReport }
    ensures done { ExampleDone }
{}

/// For each cause of a cut there is a lawful log after which a terminal is cut for it: a message that leaves its registration unclear,
/// and one that declines it; an APDU outside the grammar, and one above the limit; a deadline; and a send that has failed.
pub fn law_cut_cause_examples()
    ensures unclear { ExampleUnclearCut }
    ensures declined { ExampleDeclinedCut }
    ensures outside { ExampleOutsideCut }
    ensures too_long { ExampleTooLongCut }
    ensures late { ExampleLateCut }
    ensures failed_send { ExampleFailedCut }
{}

/// A payment, from the bytes of the till that asks for it to the reply: its Intent is kept before its terminal is asked, with the write and
/// the sync of its body and then those of its gate, and its Outcome is kept so before the till gets its reply. At the end both are kept, and
/// the terminal is ready with the payment's trace number. Once it is begun it is the terminal's one open key, and once it is paid none is
/// open. Where the terminal sends nothing, it was silent at its deadline. Two logs more, of payments that break off. In one the terminal's
/// link is lost, and the payment stays open until the terminal is linked again and reports: its Outcome is kept then, and the till gets its
/// reply. In the other the power fails once the command was sent: a TransactionStatus of a later run is replied with `InProgress` before
/// the terminal reports, and with the success, repeated, after that. As it reports there the payment is open, and it is ready after it.
pub fn law_payment_logs()
    ensures paid { PaymentIsLawful }
    ensures resolved { ResolvedIsLawful }
    ensures recovered { RecoveryIsLawful }
    ensures reported { OpenIsReported }
    ensures served { BegunIsServedOpen }
    ensures none_open { PaidHasNoneOpen }
    ensures silent { PaymentIsSilent }
{}

/// A record is in flight once its gate is written, and kept once that is synced. A start leaves it in flight; a power failure
/// leaves it exactly where it leaves the gate open.
pub fn law_record_examples()
    ensures in_flight { GateIsInFlight }
    ensures kept { SyncKeeps }
    ensures start { StartLeavesFlight }
    ensures failed_sync { FailedSyncCrashes }
    ensures closed { ClosedGateDrops }
    ensures opened { OpenGateKeeps }
{}
