//! Which logs are lawful: what is owed after each turn, by the rows of what is owed, and which turns may come next.
#![tactic(auto)]

mod malformed_laws;
mod queue_laws;

ghost use Rattle.gw_rules.specs.JournalFiles.{EachHasJournalFiles, KeepingHasJournal, KeepingLeavesJournals, KeptFileIsJournal, OpenedHasJournal, OpeningHasJournal, OpeningLeavesJournalFiles};
ghost use Rattle.gw_rules.specs.KeptExample.{FlightIsKept, UnsyncedKeepsNone};
ghost use Rattle.gw_rules.specs.KeptLaws.{EachImageHasKept, EachKeepsFile, EachKeepsJournalFiles, EachRoundHasJournal, EachStartOpensJournal, FullOnlyWithFewerSlots, HandedInKeepsFiles, KeepingKeepsFiles, LongOnlyWithFewerSlots, NeverBad, NeverTruncated, NoneKeptIsLost, OpeningKeepsFiles};
ghost use Rattle.gw_rules.specs.LedgerRules.{EachFileFolds, EachImageFolds, EachLawfulHasKept, EachLawfulKeepsJournal, LawfulRefusedOnlyWithFewerSlots, RefusedAtLimits, RefusedOnlyWithFewerSlots};
ghost use Rattle.gw_rules.specs.RecordOrder.{EachItemWasRead, EachLogComesInOrder, EachLogFolds, EachLogImageFolds, EachLogIsInOrder, EachLogLeavesSlots, DayServedIsUnknown, ReadyHasNoneOpen, ServedIsOpen};
ghost use Rattle.gw_rules.specs.ActExample.{LongerIsRead, NothingBeforeSync, OpeningIsDue, OwedBytesAreSent};
ghost use Rattle.gw_rules.specs.ActLaws.{OneCallIsDue, OneCallIsOwed, TurnsAreOfSteps};
ghost use Rattle.gw_rules.specs.AloneExample.{OutsideLeavesOther, TooLongEndsOwnLink};
ghost use Rattle.gw_rules.specs.ChunkExample.{PollBeforeSplitEnquiry, SplitIsEnquired};
ghost use Rattle.gw_rules.specs.ChunkLaws.{DoneAtOnceIsEnquired};
ghost use Rattle.gw_rules.specs.CutCauses.{EachPtCutHasCause, FailedSendCuts};
ghost use Rattle.gw_rules.specs.DayLogs.{CutDayFails, EachDayKeptWasCompleted, LostDayFails};
ghost use Rattle.gw_rules.specs.DialogueLaws.{DoneRegistrationIsEnquired, ReportMakesReady};
ghost use Rattle.gw_rules.specs.DoneExample.{ExampleDoneAtOnce};
ghost use Rattle.gw_rules.specs.LinkLaws.{DueIsTried, EachUsesLinks, EnquiryFollowsRegistration, LinkedRegisters, OutsideCuts, SilentEnquiryIsCut, TriedOnceRested, UnfinishedRegistrationIsCut};
ghost use Rattle.gw_rules.specs.OutsideLaws.{OutsideIsAlone, TooLongIsAlone};
ghost use Rattle.gw_rules.specs.SilenceLaws.{SilentDialogueIsCut, SilentRegistrationIsCut};
ghost use Rattle.gw_rules.specs.StopLogs.{EachStopIsWishedOnce, ExampleStops, StopIsSentOnce};
ghost use Rattle.gw_rules.specs.Laws.{BadFrameCuts, CallsEndInOne, CrowdedCuts, EachHasOneLeanCourse, EachHeardIsBytes, PrefixIsLawful, PtBytesBring, RestartIsLawful, SetupIsWithinLimits, TillBytesBring};
ghost use Rattle.gw_rules.specs.TranscriptLaws.{ClearOwesItsCalls, EachCommandWasSent, EachLogFollowsTranscript, EachMessageWasSaid, EachPollFollowsTranscript, ExampleLogTranscript};
ghost use Rattle.gw_rules.specs.TillLaws.{EachBeginningIsThere, EachQueueingIsThere, EachServedIsThere, EachUsesTills, OwedIsThere};
ghost use Rattle.gw_rules.specs.TrickleExample.{PollBeforeTrickleCut, TrickleIsCut, TrickleIsSilent};

pub use malformed_laws::{law_malformed_terminal_bytes, law_malformed_till_bytes};
pub use queue_laws::law_queues;

/// Along each lawful log there is exactly one course in which nothing begins unless a turn of its run follows.
pub fn law_one_course()
    ensures one { EachHasOneLeanCourse }
{}

/// Each prefix of a lawful log is lawful.
pub fn law_prefix()
    ensures prefix { PrefixIsLawful }
{}

/// A lawful log, then a power failure that leaves one of the files that it may leave, then a start, is lawful.
pub fn law_crash()
    ensures restart { RestartIsLawful }
{}

/// The setup of each run of a lawful log lies within its limits.
pub fn law_setup()
    ensures within { SetupIsWithinLimits }
{}

/// What is owed at once is calls on the disk and then one other call at most, so nothing is owed after a send that fails but
/// the cut of its connection.
pub fn law_calls()
    ensures calls { CallsEndInOne }
{}

/// A run does acts: items begin and are read, and the site takes steps, whose turns one after the other are the run's. One call at
/// most is owed; and from the opening of the site on one is due, but where the journal's file may be read: two calls that are due at the
/// same moment are the same, or one of them reads the file. So the acts say of a run what its log alone doesn't: that the file was
/// looked at, which leaves no turn, and which call comes next, with its bytes. In examples, an opening on an empty file is
/// a sync, the question for its length, its first gate and its sync; nothing comes before the sync; a longer file is read before
/// the first poll; and of what is sent each byte is owed.
pub fn law_acts()
    ensures turns { TurnsAreOfSteps }
    ensures one_owed { OneCallIsOwed }
    ensures one_call { OneCallIsDue }
    ensures opening { OpeningIsDue }
    ensures sync_first { NothingBeforeSync }
    ensures longer { LongerIsRead }
    ensures owed_bytes { OwedBytesAreSent }
{}

/// What is heard in a lawful log is bytes. What newly heard bytes bring is said by the frames, and by the APDUs, of all bytes
/// that were heard of the till or the terminal.
pub fn law_heard()
    ensures bytes { EachHeardIsBytes }
    ensures tills { TillBytesBring }
    ensures terminals { PtBytesBring }
{}

/// In a lawful log, after bytes of a till that begin no frame, the till is cut before the next poll.
pub fn law_bad_frame_cuts()
    ensures cuts { BadFrameCuts }
{}

/// In a lawful log, after a till opens while 64 others are there, it is cut before the next poll.
pub fn law_crowded_cuts()
    ensures cuts { CrowdedCuts }
{}

/// In a lawful log a terminal is sent something, or cut, only while it is linked, and linked only while it isn't. The next turn
/// after the one that links it sends it its registration, by the run's setup, or where that send fails a prefix of it, unless the run
/// ends there.
pub fn law_links()
    ensures used { EachUsesLinks }
    ensures registers { LinkedRegisters }
{}

/// Along each lawful log a till is sent something, or that fails, only while it is there: each till that is owed anything at once is. The
/// till of what a terminal serves is there, or has just closed its connection, which is handled next; and so is the till whose request a
/// terminal is to begin to serve next, or whose request next joins those that wait, or takes one of them out.
pub fn law_tills()
    ensures used { EachUsesTills }
    ensures owed { OwedIsThere }
    ensures served { EachServedIsThere }
    ensures begins { EachBeginningIsThere }
    ensures queues { EachQueueingIsThere }
{}

/// In a lawful log, after bytes of a terminal that say an APDU outside the grammar, or begin one above the limit, it is cut before
/// the next poll.
pub fn law_outside_cuts()
    ensures cuts { OutsideCuts }
{}

/// In a lawful log, an APDU outside the grammar, and bytes that begin one above the limit, change nothing but the link of the terminal
/// that says them. Their item begins before the next poll. Where the terminal is linked in the view before that, the next turn is its
/// cut, and once nothing is left to handle of the same bytes all is as in that view, but that the terminal's connection is gone and that
/// it is due in five seconds: each other terminal, each till, the records and the file are the same, and no other call was owed. But
/// where it serves an end of day or a display, the till of that, where it is there, is sent the reply for what isn't finished right after the
/// cut, or is cut where that send fails. Where the terminal was cut before, all is as in that view.
pub fn law_outside_alone()
    ensures outside { OutsideIsAlone }
    ensures too_long { TooLongIsAlone }
    ensures example { OutsideLeavesOther }
    ensures too_long_example { TooLongEndsOwnLink }
{}

/// In a lawful log a terminal is cut only for these causes: the turn right before is a send to it that has failed; with the bytes that
/// began the round it has said an APDU outside the grammar, begun one above the limit, or said a message that leaves its dialogue unclear,
/// or declines its registration or enquiry; or the deadline of its dialogue has come. Of these four each is an item that begins right
/// before the cut, and owes it alone. After a send to it that has failed the next turn cuts it, unless the run ends there.
pub fn law_cut_causes()
    ensures causes { EachPtCutHasCause }
    ensures failed_send { FailedSendCuts }
{}

/// In a lawful log, a terminal of the run's setup that isn't linked as a poll comes is linked before the next one, or can't be,
/// where five seconds have passed since its link last ended or couldn't be made in the run. Before that it isn't tried.
pub fn law_due_is_tried()
    ensures tried { DueIsTried }
    ensures rested { TriedOnceRested }
{}

/// In a lawful log, a terminal that has said no whole APDU since it was linked, and so since its registration was sent, is cut before the
/// next poll, once a poll comes that is later than the link by the seconds that its settings give it to acknowledge a command, where with
/// what that brings it says none either, begins none above the limit, and its link doesn't end before: so no poll comes before the cut, in an example, of one that says a single byte with each poll. So
/// is one of which nothing but `80 00 00`, in a chunk of its own, was heard on its link, once a poll brings nothing of it, by the seconds
/// that they give it from one message to the next; and one of which that and then `06 0F 00`, in a chunk of its own, and nothing else
/// was heard, and that was enquired, by those for a command. `law_silent_dialogue_cuts` says it of every dialogue, along courses.
pub fn law_silent_cuts()
    ensures registration { SilentRegistrationIsCut }
    ensures poll_before { PollBeforeTrickleCut }
    ensures unfinished { UnfinishedRegistrationIsCut }
    ensures enquiry { SilentEnquiryIsCut }
{}

/// In a lawful log, after a terminal of which `80 00 00` and then `06 0F 00` were heard, each in a chunk of its own and nothing else on
/// the link, the next turn acknowledges that, and the one after it sends its enquiry, by the run's setup, or a prefix of it where that
/// send fails, unless the run ends there or the acknowledgement can't be sent. `law_dialogue_ends` says it of any chunks.
pub fn law_registered_is_enquired()
    ensures enquired { EnquiryFollowsRegistration }
{}

/// In a lawful log, a terminal of the run's setup that was linked and has said no whole APDU, and then with the bytes that begin a round
/// says APDUs that end its registration as done, as where they bring its Ack and its Completion at once, is sent its enquiry before the
/// next poll, unless its link ends before. So it is, in an example, where the first byte comes alone: no poll comes before the enquiry.
pub fn law_done_at_once()
    ensures enquired { DoneAtOnceIsEnquired }
    ensures example { SplitIsEnquired }
    ensures poll_before { PollBeforeSplitEnquiry }
    ensures premise { ExampleDoneAtOnce }
{}

/// Along each lawful course, a terminal that registers, is enquired or serves what a till asked for, completes no APDU and begins none
/// above the limit, is cut before the next poll, unless its link ends before, once a poll comes at its dialogue's deadline or later:
/// bytes that complete no APDU don't put the deadline off, whichever polls bring them, nor does what tills ask for, an Abort among it.
/// So it is, in an example, where a single byte comes with each poll.
pub fn law_silent_dialogue_cuts()
    ensures cuts { SilentDialogueIsCut }
    ensures example { TrickleIsSilent }
    ensures example_cut { TrickleIsCut }
{}

/// Along each lawful course, a terminal that registers, and with newly heard bytes says APDUs that end its registration as done, is sent its
/// enquiry before the next poll; and one that is enquired, and so reports a trace number, is ready with that number when the next poll may
/// come, or was as the first request was looked at that waited for it, where that is none below the least that it may report: by the records as the bytes come the number before its open payment or
/// reversal, or its last trace number where it has none. What was open is resolved then, as no key of a terminal that is ready is open, by
/// `law_records_in_order`. So it is unless its link ends before, and however the bytes split the APDUs.
pub fn law_dialogue_ends()
    ensures enquired { DoneRegistrationIsEnquired }
    ensures ready { ReportMakesReady }
{}

/// After each lawful log, each terminal's dialogue, how many Acks and Nacks it awaits, and its standing, but for the moment at which
/// one that isn't linked is due and the slot or the request of what it serves, are those of a flat list: since it was linked, the commands that were
/// sent to it, the messages that were taken of it, each with the least trace number that it might report then, by the records, and the
/// stops that tills wished of what it serves. The commands that are owed to it count as sent, after others too; and where its cut is
/// owed nothing is said. Where a call on the disk has failed, what was owed then counts so, though it is made no more. While it is
/// linked the commands that were sent to it are all that the log says were sent to it since; and each of the messages it said in some
/// round of the log, at that moment; and each stop that was wished was wished by a till that has said, in some round of the log, an Abort.
pub fn law_standing_transcript()
    ensures logs { EachLogFollowsTranscript }
    ensures owed { ClearOwesItsCalls }
    ensures polls { EachPollFollowsTranscript }
    ensures sent { EachCommandWasSent }
    ensures said { EachMessageWasSaid }
    ensures example { ExampleLogTranscript }
{
    gw_owes::law_transcript();
}

/// After each lawful log the file, that of the last sync, and whatever a power failure leaves are files that a journal can have
/// left; and so after each turn of a lawful course from where a journal is to be opened, or a record to be kept in one, as long as no
/// item owes that another is kept. An opening gives the journal in which a record is kept, and the keeping of a record gives it anew.
/// So runs on files that are handed in, whoever wrote them, keep records in them: from files that have exactly the view's records, none of
/// them truncated, each turn and each item of a gateway that keeps a journal leaves such files.
pub fn law_journal_files()
    ensures lawful { EachHasJournalFiles }
    ensures opening { OpeningLeavesJournalFiles }
    ensures opened { OpeningHasJournal }
    ensures opened_example { OpenedHasJournal }
    ensures keeping { KeepingLeavesJournals }
    ensures has { KeepingHasJournal }
    ensures kept { KeptFileIsJournal }
    ensures handed_in { HandedInKeepsFiles }
    ensures opening_on { OpeningKeepsFiles }
    ensures keeping_on { KeepingKeepsFiles }
{
    gw_owes::law_records();
    gw_owes::law_waits();
}

/// What is kept in the journal, at each moment of a log of a gateway that keeps one, whichever rows owe that a record is kept: the
/// records that are kept are what the slots of the stable file spell, and those of the file are these and then the one in flight.
/// Whatever a power failure leaves has them, and then at most the one in flight; no record that is kept is ever lost. What it leaves has no
/// truncated slot, and each of its slots has a record that lies within its limits and may follow those before it. It is too long,
/// or leaves fewer slots free than keys open, only for a setup with fewer slots than one before it. So an opening has cause to
/// refuse only what another program has written, or a run with more slots. Each run that begins may make its opening, which gives it the
/// journal with the records of the file; and while a round goes on and no call on the disk is owed, the journal is open with the records
/// that are kept.
///
/// Each run of a lawful log opens the journal, and each record that a row keeps may follow those before it, and has room, by the rules of
/// the ledger: so `lawful` says that each lawful log is one of these, and `lawful_kept` that what is kept is said of it. `left` says that the files are those that a journal can have left; `example` has a closed log,
/// and `unsynced` calls that keep no record.
pub fn law_kept_files()
    ensures file { EachKeepsFile }
    ensures images { EachImageHasKept }
    ensures never_lost { NoneKeptIsLost }
    ensures truncated { NeverTruncated }
    ensures bad { NeverBad }
    ensures long { LongOnlyWithFewerSlots }
    ensures full { FullOnlyWithFewerSlots }
    ensures starts { EachStartOpensJournal }
    ensures round { EachRoundHasJournal }
    ensures left { EachKeepsJournalFiles }
    ensures lawful { EachLawfulKeepsJournal }
    ensures lawful_kept { EachLawfulHasKept }
    ensures example { FlightIsKept }
    ensures unsynced { UnsyncedKeepsNone }
{
    gw_owes::law_records();
    gw_owes::law_waits();
}

/// The ledger of the records that are kept can be built at each opening: those of the file, and those of whatever a power failure leaves,
/// are folded. An opening finds the file refused, as too long for the slots or as leaving fewer slots free than keys open, only where an
/// earlier run of the log had more slots; so it is after each lawful log. Examples: with two slots a file of 513 bytes is
/// the longest; and that of one Intent, whose key is open, needs two slots.
pub fn law_openings()
    ensures folds { EachFileFolds }
    ensures images { EachImageFolds }
    ensures refused { RefusedOnlyWithFewerSlots }
    ensures lawful { LawfulRefusedOnlyWithFewerSlots }
    ensures example { RefusedAtLimits }
{
    gw_owes::law_records();
    gw_owes::law_waits();
}

/// After each lawful log the records fold: those that are kept, those of the file, those once the calls that are owed at once are made,
/// and those of whatever a power failure leaves. While the run goes on they leave a slot for the Outcome of each open key and the
/// Settled of each end of day that is served, and two for each request that waits; and until a call on the disk fails, they have what the
/// standing of each terminal says, but of one whose cut is owed. So between items what is known is in order: of a terminal that is ready no
/// key is open, a payment or a reversal that a terminal serves is its one open key, and the key of an end of day that one serves is
/// unknown to the records. Each message that is to be handled, and each request that a terminal is to begin to serve, or that joins those
/// that wait for it, was read from bytes.
pub fn law_records_in_order()
    ensures folds { EachLogFolds }
    ensures images { EachLogImageFolds }
    ensures slots { EachLogLeavesSlots }
    ensures terminals { EachLogComesInOrder }
    ensures read { EachItemWasRead }
    ensures order { EachLogIsInOrder }
    ensures ready { ReadyHasNoneOpen }
    ensures served { ServedIsOpen }
    ensures day { DayServedIsUnknown }
{
    gw_owes::law_records();
    gw_owes::law_waits();
}

/// Along each lawful course `06 B0` is owed to a terminal, and sent to it, only where its link has carried, since its last command but
/// stops, an Ack and a stop that a till wished, and no stop: so it is sent only once an Ack has come since the command of what is served,
/// which may be the late one of a stop before, only after an Abort of a till, and once a dialogue. That a till has said the Abort, and the terminal the Ack, each in a round of the
/// log, is `law_standing_transcript`.
pub fn law_stop_logs()
    ensures stops { EachStopIsWishedOnce }
    ensures sent { StopIsSentOnce }
    ensures example { ExampleStops }
{
    gw_owes::law_transcript();
}

/// In a lawful log the Settled of an end of day is kept only once a terminal of the run's setup, whose POIID it has, was sent an end of
/// day on its present link, and no other command after it but stops, and has then said a Completion with the bytes that began the round; and its
/// till gets the totals only after the Settled is kept. Where the link of a terminal that serves an end of day is cut or lost, its till
/// gets a Failure for `UnavailableDevice`, where it is there, no other call is owed, and no record is kept.
pub fn law_day_logs()
    ensures kept { EachDayKeptWasCompleted }
    ensures cut { CutDayFails }
    ensures lost { LostDayFails }
{
    gw_owes::law_transcript();
    gw_owes::law_records();
    gw_owes::law_waits();
}
