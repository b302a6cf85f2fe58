//! Laws of what the items of terminals and their links leave and owe. Each function does nothing: its contract is the law.
ghost use Rattle.gw_owes.specs.AwaitedLaws.{EachLinkAwaitsNoMore, EachRowAwaitsNoMore, EachStepAwaitsNoMore, EachUnstoppedIsHandedItsOwn, ExampleAwaitedOfStops};
ghost use Rattle.gw_owes.specs.DealLaws.{EachLinkKeepsDeals, EachRowKeepsDeals, NewCoreHasDeals};
ghost use Rattle.gw_owes.specs.Dialogues.{EachLinkGivesDialogues, EachRowKeepsDialogues, NewCoreHasDialogues};
ghost use Rattle.gw_owes.specs.PaymentExample.{ExampleReportBelow, ExampleReportBelowOpen};
ghost use Rattle.gw_owes.specs.TerminalLaws.{AbsentIsOwedNothing, AsideStaysAside, DueIsLinked, EachAckTakesOne, EachAsideHasCause, EachCauseCuts, EachCutHasCause, EachLinkChangesItsTerminal, EachLinkCountsAnew, EachMessageCounts, EachLinkLeavesWaits, EachMessageIsGreeted, EachNextCounts, EachRowChangesItsTerminal, EachRowLeavesWaits, EachServedCounts, EachServedLeavesLast, EnquiredIsReady, EnquiredIsSetAside, ForeignHasNoEffect, GreetingChangesNothing, GreetingsAreSpelled, LateNackIsUnclear, NackAtMostIsUnclear, LinkedIsRegistered, NoLinkEventCuts, NoLinkEventSetsAside, RegisteredIsEnquired, UnlinkedIsOwedNothing};
ghost use Rattle.gw_owes.specs.Transcript.{EachLinkBeginsTranscript, EachRowFollowsTranscript, EachStepFollowsTranscript, NewCoreFollowsTranscript};
ghost use Rattle.gw_owes.specs.TranscriptExample.{ExampleTranscript};

/// An item of a terminal, and an event of its link, changes nothing that is remembered but this terminal, and never its
/// settings; who is logged out is changed by a Login and a Logout alone (`law_sessions`), the number of the next device request by a
/// device request alone (`law_device_requests`), and what waits only where the first that waits for it is begun or refused. A greeting changes nothing at all; an APDU outside the grammar, and a command of the
/// terminal's own, have no effect once they are greeted.
pub fn law_terminal_alone()
    ensures rows { EachRowChangesItsTerminal }
    ensures links { EachLinkChangesItsTerminal }
    ensures waits { EachRowLeavesWaits }
    ensures waits_links { EachLinkLeavesWaits }
    ensures greeting { GreetingChangesNothing }
    ensures foreign { ForeignHasNoEffect }
{}

/// Nothing is owed for what a terminal sends that isn't linked.
pub fn law_unlinked()
    ensures unlinked { UnlinkedIsOwedNothing }
    ensures absent { AbsentIsOwedNothing }
{}

/// What a terminal is still to acknowledge or refuse on its link: one more with each command that is sent, the stop among them, one
/// less with each Ack and Nack in whatever standing, and never below 0, at each message. The greatest count stays until the next
/// link. Where that is more than one, a Nack before the last command is acknowledged is unclear; so it is at the greatest count.
pub fn law_awaited()
    ensures takes { EachAckTakesOne }
    ensures counts { EachMessageCounts }
    ensures served { EachServedCounts }
    ensures next { EachNextCounts }
    ensures anew { EachLinkCountsAnew }
    ensures late { LateNackIsUnclear }
    ensures most { NackAtMostIsUnclear }
{}

/// A terminal's connection is cut only for an APDU outside the grammar, bytes that begin one above the limit, an unclear end, a
/// declined registration or enquiry, and a deadline; and where it is linked it is cut for each of these, and nothing else is owed
/// then. Beside these there is the cut after a send that fails, which no item owes.
pub fn law_terminal_cuts()
    ensures items { EachCutHasCause }
    ensures causes { EachCauseCuts }
    ensures links { NoLinkEventCuts }
{}

/// A terminal that is linked is sent nothing for an Ack or a Nack, `84 83 00` for a command of its own, and `80 00 00` for each
/// other message.
pub fn law_greetings()
    ensures each { EachMessageIsGreeted }
    ensures spelled { GreetingsAreSpelled }
{}

/// A terminal that is due is linked, then registered, then enquired, and then ready with what it reports, where nothing is open on
/// record and none on record is greater (else: `law_open_reports`, `law_set_aside`).
pub fn law_way_to_ready()
    ensures due { DueIsLinked }
    ensures linked { LinkedIsRegistered }
    ensures registered { RegisteredIsEnquired }
    ensures enquired { EnquiredIsReady }
{}

/// Of its own items a terminal is set aside only by a message: where it is enquired and reports a trace number below the one before its
/// open payment or reversal, or, where none is open, below the last one of its records; or where it approves what it serves with one
/// that isn't above the one before. It is set aside by each such report, and nothing is kept. It stays so through each item of its own
/// until its link is lost, with no command sent to it and no record kept for it but the Settled of a till's own reconciliation, which
/// asks nothing of it. An end of day and a display have no trace number: the terminal is ready as before once they are done or declined.
pub fn law_set_aside()
    ensures items { EachAsideHasCause }
    ensures links { NoLinkEventSetsAside }
    ensures enquired { EnquiredIsSetAside }
    ensures stays { AsideStaysAside }
    ensures no_trace { EachServedLeavesLast }
    ensures example { ExampleReportBelow }
    ensures open_example { ExampleReportBelowOpen }
{}

/// Each terminal has the dialogue of its standing: a registration or an enquiry that goes on, with the Ack or Nack of its command
/// awaited until it comes; that of a payment, a reversal or an end of day, with that and those of stops; that of a display, which isn't
/// acknowledged yet; or none. Without a link nothing is awaited. It has it as a run begins, and each item that cuts no connection, and
/// each event of a link, leaves it so. The dialogue of a payment or a reversal is that of what its Intent in the records says, also
/// after an item that cuts.
pub fn law_dialogues()
    ensures new { NewCoreHasDialogues }
    ensures rows { EachRowKeepsDialogues }
    ensures links { EachLinkGivesDialogues }
    ensures deals_new { NewCoreHasDeals }
    ensures deals_rows { EachRowKeepsDeals }
    ensures deals_links { EachLinkKeepsDeals }
{}

/// What is remembered of a terminal is a few facts, which each item moves on. They are what the transcript of its link says, the
/// flat list of all that was sent and taken on it, and of the stops that were wished: the dialogue that runs, how many Acks and Nacks
/// are awaited, and the standing. So it is as a run begins; each item of the terminal that cuts no connection, and each event of its
/// link, leaves it so; and so it is after every list of such steps from there, with the cuts among them, whatever brings them, and
/// whatever waits. Examples are computed: a terminal that becomes ready, and then serves payments, each of which ends in another way,
/// one that has waited, a reversal, a payment that is to stop and approves all the same, with a late refusal that may be that of its
/// stop, ends of day and displays.
///
/// No more Acks and Nacks are awaited than stops were sent on the link, and one while the command of the dialogue that runs isn't
/// acknowledged; at the greatest count, which doesn't fall, that one may stay. So where no stop was sent on it, each message is handed
/// to the dialogue as it came, and a refusal of the command, with any code but 0, declines what was asked.
pub fn law_transcript()
    ensures new { NewCoreFollowsTranscript }
    ensures rows { EachRowFollowsTranscript }
    ensures links { EachLinkBeginsTranscript }
    ensures steps { EachStepFollowsTranscript }
    ensures example { ExampleTranscript }
    ensures awaits_rows { EachRowAwaitsNoMore }
    ensures awaits_links { EachLinkAwaitsNoMore }
    ensures awaits_steps { EachStepAwaitsNoMore }
    ensures unstopped { EachUnstoppedIsHandedItsOwn }
    ensures awaits_example { ExampleAwaitedOfStops }
{
    zvt_talk::law_talk_steps();
    zvt_talk::law_ends();
}
