//! Laws of the logs of scripts.
ghost use Rattle.gw_run.specs.Example.{LinksHasText, LinksIsOfScript, StatusHasText, StatusIsOfScript};
ghost use Rattle.gw_run.specs.Laws.{LogGoesByLines, LogHasEvents, LogHasScript, LogIsPlayed, OneDrillLog, OneLog};
ghost use Rattle.gw_run.specs.PowerExample.{LaterIsOfScript, PowerHasText, PowerIsOfScript, UnmeasuredIsOfScript, UnopenedIsOfScript};
ghost use Rattle.gw_run.specs.ReadyExample.{FailedIsNotOfScript, ReadyHasText, ReadyIsOfScript};
ghost use Rattle.gw_run.specs.WordsExample.{AcceptedExamples, RefusedExamples};

/// A script has one log at most, whatever calls on the disk and power failures its lines make fail: while the power is there one call is
/// due, but that the journal's file may be read once more, which leaves no turn; the script says what the turns of each step are;
/// and the log goes on until the script was read to its end, the site can't be opened, or a call on the disk has failed.
/// So a drill has one log at most, by its two numbers.
pub fn law_one_log()
    ensures one { OneLog }
    ensures drill { OneDrillLog }
{}

/// The log of a script is lawful, plays the script's lines, and has the outcome of an opening with the script's setup at first and
/// after each power failure, and nowhere else.
/// Where no line makes a call or the power fail, a log is the script's exactly where it is lawful, one run with the script's setup, and
/// goes by the script's lines, in their order: each is skipped where it names a till or a terminal that isn't there, or opens a number
/// that isn't above those before, and else gives a poll at the moment of the last `at` line and its event; after the last line
/// comes the stop. Whatever calls fail, the polls and events of a log that is one run to the stop are those of some of its lines, in
/// their order. Only a script has a log.
pub fn law_plays()
    ensures played { LogIsPlayed }
    ensures lines { LogGoesByLines }
    ensures events { LogHasEvents }
    ensures script { LogHasScript }
{}

/// A script in which a till asks for the status of a payment that nobody knows has this log, with this text.
pub fn law_status()
    ensures script { StatusIsOfScript }
    ensures text { StatusHasText }
{}

/// A script in which a link is lost, a send to its terminal fails after three bytes, and then the link itself fails, has this
/// log, with this text.
pub fn law_failing_calls()
    ensures script { LinksIsOfScript }
    ensures text { LinksHasText }
{}

/// A script in which the power fails at the first poll has this log, with this text: the next run opens the journal in the file that is left,
/// and goes on in the script. Where the site can't be opened the log is that alone; where the length of the journal's file can't be asked,
/// in the first run or, as a line has said before a power failure, in the one after it, the log ends with that.
pub fn law_power()
    ensures script { PowerIsOfScript }
    ensures text { PowerHasText }
    ensures unopened { UnopenedIsOfScript }
    ensures unmeasured { UnmeasuredIsOfScript }
    ensures later { LaterIsOfScript }
{}

/// A script in which a terminal is linked, registered and enquired, and reports its last transaction, has this log, with this text:
/// at its end the terminal is ready.
pub fn law_ready()
    ensures script { ReadyIsOfScript }
    ensures text { ReadyHasText }
{}

/// A lawful log in which a link fails, although no line of that script makes it fail, isn't the log of the script.
pub fn law_another_log()
    ensures other { FailedIsNotOfScript }
{}

/// These lists of words are accepted, with what each asks for, and these are refused.
pub fn law_words()
    ensures accepted { AcceptedExamples }
    ensures refused { RefusedExamples }
{}
