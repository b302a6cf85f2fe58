//! Power failures in a payment, in a reversal and in a payment that is aborted, after each call in turn: whatever the power leaves of the
//! file, the terminal plays on, and what tills get in the end agrees with its book.
//!
//! The terminal is a played one. A script is played from its start, again and again, each time with what the terminal has sent at the log of
//! the time before. No line of a script is taken before the first poll of a run, so the power fails in no opening here; `gateway_tests` has
//! those.
use crate::fixture::{heard, terminal_of};
use gateway_play::replayed;
use pt_core::{Answer, Play, Plays, Terminal};
use row_texts::{halves, push_form, push_paid, push_played};
use std::alloc::{AllocError, Global};
use std::process::Abort;
use std::str;
use std::test::Fail;

/// The terminal is ready, at 2025-03-07T10:11:04Z.
const READY: &str = "\
terminal T1 EUR 123456 186 131
at 1741342264
open 1
pt 0 800000060f00
pt 0 800000061e0183
";

/// The terminal has cut the connection, and it is made again; then the clock goes back, so that each payment ends at the same moment.
const CUT: &str = "\
lost 0
at 1741342269
tick
at 1741342264
";

/// How often a script is played for lines that are added at once, at most.
const MOST_PLAYS: usize = 9;

/// How many calls the next run makes, at least: the link, the registration, its acknowledgement, the enquiry, one more, and three replies.
const FEWEST_CALLS: u64 = 8;

/// How many it makes, at most.
const MOST_CALLS: u64 = 40;

/// What a power failure leaves.
const IMAGES: [&str; 3] = ["old", "new", "junk a5"];

/// What a till asks for while the power fails, and once it is there again.
struct Request {
    /// The word of its line, its ServiceID, and what comes after that.
    word: &'static str,
    service: &'static str,
    content: &'static str,
    /// How its command begins in the log.
    command: &'static str,
    /// The words of its reply and of the one that repeats it.
    reply: &'static str,
    repeated: &'static str,
    /// What these name where the terminal has booked it, and where it hasn't.
    done: &'static str,
    undone: &'static str,
    is_reversal: bool,
}

/// A payment of 10.99, the first one of the terminal.
const PAYMENT: Request = Request {
    word: "pay",
    service: "1",
    content: "10.99",
    command: "pt 0 out 0601",
    reply: "result",
    repeated: "repeats",
    done: "000001-0001-0 10.99",
    undone: "000000-0000-0",
    is_reversal: false,
};

/// Its reversal.
const REVERSAL: Request = Request {
    word: "reverse",
    service: "2",
    content: "000001-0001-0",
    command: "pt 0 out 0630",
    reply: "reversed",
    repeated: "repeats_reversed",
    done: "000002-0002-2 10.99",
    undone: "000000-0000-2",
    is_reversal: true,
};

/// A request in which the power fails.
struct Case {
    /// What the terminal does at its first payment.
    play: Play,
    /// What a till has asked for before.
    before: &'static str,
    request: Request,
    /// What comes right after the request, and what comes later where the power hasn't failed by then.
    after: &'static str,
    later: &'static str,
    /// How many stops are sent where the power doesn't fail.
    stops: usize,
    /// After how many calls the power no longer fails before its end.
    whole: u64,
}

/// Four calls keep the Intent; then the command, two acknowledgements, four calls for the Outcome, and the reply.
const APPROVED: Case = Case {
    play: Play::Approve,
    before: "",
    request: PAYMENT,
    after: "",
    later: "",
    stops: 0,
    whole: 13,
};

/// The same with one acknowledgement.
const DECLINED: Case = Case {
    play: Play::Decline(0x6C),
    before: "",
    request: PAYMENT,
    after: "",
    later: "",
    stops: 0,
    whole: 12,
};

/// The Intent and the command; then the link, the registration, its acknowledgement, the enquiry, two acknowledgements, the Outcome, and
/// the reply.
const CUT_AFTER_BOOK: Case = Case {
    play: Play::CutAfterBook,
    before: "",
    request: PAYMENT,
    after: "",
    later: "",
    stops: 0,
    whole: 17,
};

/// The calls of a payment that is approved.
const REVERSED: Case = Case {
    play: Play::Approve,
    before: "pay 1 1 10.99",
    request: REVERSAL,
    after: "",
    later: "",
    stops: 0,
    whole: 13,
};

/// The connection is lost once the reversal is booked: the calls of a payment whose connection is cut then.
const REVERSAL_LOST: Case = Case {
    play: Play::Approve,
    before: "pay 1 1 10.99",
    request: REVERSAL,
    after: "\nlost 0",
    later: "at 1741342269\ntick\nat 1741342264",
    stops: 0,
    whole: 17,
};

/// The stop is one call more. It comes too late.
const ABORTED_TOO_LATE: Case = Case {
    play: Play::Approve,
    before: "",
    request: PAYMENT,
    after: "\nabort 1 7 1",
    later: "",
    stops: 1,
    whole: 14,
};

/// The terminal stops.
const ABORTED: Case = Case {
    play: Play::Decline(0x6C),
    before: "",
    request: PAYMENT,
    after: "\nabort 1 7 1",
    later: "",
    stops: 1,
    whole: 13,
};

/// A script, and the terminal whose part it has.
#[derive(Drop)]
struct Trial {
    script: String,
    /// Its log but for the last poll.
    log: String,
    terminal: Terminal,
    /// What the terminal has sent and the script hasn't brought yet, in hexadecimal.
    sent: String,
    /// Whether it cuts the connection after that.
    is_cut: bool,
}

impl Trial {
    /// What the terminal has sent doesn't arrive any more.
    fn forget(&mut self) {
        self.sent.clear();
        self.is_cut = false;
    }

    /// The terminal is linked anew.
    fn link(&mut self) {
        self.terminal.on_link();
        self.forget();
    }

    /// The terminal sends this.
    fn send(&mut self, alloc: Global, answer: &Answer) -> Result<(), AllocError> {
        let digits = hex::encode(alloc, answer.bytes.as_slice())?;
        self.sent.push_str(&digits)?;
        self.is_cut = self.is_cut || answer.cut;
        Ok(())
    }

    /// The terminal hears these bytes.
    fn hear_bytes(&mut self, alloc: Global, bytes: &[u8]) -> Result<(), AllocError> {
        let answer = heard(alloc, &mut self.terminal, bytes)?;
        self.send(alloc, &answer)
    }

    /// The terminal hears these bytes, in hexadecimal.
    fn hear(&mut self, alloc: Global, digits: &str) -> Result<(), Fail> {
        let bytes = hex::decode(alloc, digits)?;
        self.hear_bytes(alloc, &bytes)?;
        Ok(())
    }

    /// The script has brought these bytes, which the terminal has sent before.
    fn bring(&mut self, alloc: Global, digits: &str) -> Result<(), Fail> {
        let rest = self.sent.strip_prefix(digits).ok_or("not its bytes")?;
        self.sent = String::from_str(alloc, rest)?;
        Ok(())
    }

    /// The terminal meets what a line of the log says of its bytes.
    fn meet_bytes(&mut self, alloc: Global, words: &str) -> Result<(), Fail> {
        if let Some(digits) = words.strip_prefix("0 out ") {
            self.hear(alloc, digits)
        } else if let Some(digits) = words.strip_prefix("0 in ") {
            self.bring(alloc, digits)
        } else {
            Ok(())
        }
    }

    /// The terminal meets a line of the log.
    fn meet(&mut self, alloc: Global, line: &str) -> Result<(), Fail> {
        let (word, rest) = halves(line);
        match word {
            "link" => self.link(),
            "lost" | "power" => self.forget(),
            "pt" => self.meet_bytes(alloc, rest)?,
            _ => {}
        }
        Ok(())
    }

    /// The terminal meets these lines of the log.
    fn meet_all(&mut self, alloc: Global, lines: &str) -> Result<(), Fail> {
        for line in lines.split('\n') {
            self.meet(alloc, line)?;
        }
        Ok(())
    }

    /// The terminal meets what is new in this log, which a last poll ends.
    fn follow(&mut self, alloc: Global, text: &str) -> Result<(), Fail> {
        let (log, _) = text.rsplit_once("at ").ok_or("no last poll")?;
        let new = log.strip_prefix(self.log.as_str()).ok_or("another log")?;
        self.meet_all(alloc, new)?;
        self.log = String::from_str(alloc, log)?;
        Ok(())
    }

    /// Plays the script. The terminal meets what is new in the log.
    fn play(&mut self, alloc: Global) -> Result<(), Fail> {
        let out = replayed(alloc, &self.script)?;
        self.follow(alloc, str::from_utf8(out.bytes().as_slice())?)
    }

    /// Adds to the script what the terminal has sent. False where that is nothing.
    fn add_sent(&mut self) -> Result<bool, AllocError> {
        if self.sent.is_empty() {
            return Ok(false);
        }
        push_form(&mut self.script, "pt 0 %\n", &[&self.sent])?;
        if self.is_cut {
            self.script.push_str(CUT)?;
        }
        Ok(true)
    }

    /// Adds these lines to the script.
    fn add(&mut self, lines: &str) -> Result<(), Fail> {
        for line in lines.split('\n') {
            push_played(&mut self.script, line)?;
        }
        Ok(())
    }

    /// Adds these lines, and plays the script until the terminal has no more to send.
    fn go_on(&mut self, alloc: Global, lines: &str) -> Result<(), Fail> {
        self.add(lines)?;
        for _ in 0..MOST_PLAYS {
            self.play(alloc)?;
            if !self.add_sent()? {
                return Ok(());
            }
        }
        Err(Fail::from("the terminal sends more and more"))
    }

    /// A till connects.
    fn open(&mut self, alloc: Global, till: u64) -> Result<(), Fail> {
        let line = format!(in alloc; "open {till}")?;
        self.go_on(alloc, &line)
    }

    /// A till asks what became of the request, and sends it again.
    fn ask_and_repeat(&mut self, alloc: Global, request: &Request, till: u64) -> Result<(), Fail> {
        let (word, service, content) = (request.word, request.service, request.content);
        let lines = format!(in alloc;
            "status {till} 8 {service}\n{word} {till} {service} {content}"
        )?;
        self.go_on(alloc, &lines)
    }

    /// A till asks once more what became of the request.
    fn ask_again(&mut self, alloc: Global, request: &Request, till: u64) -> Result<(), Fail> {
        let line = format!(in alloc; "status {till} 9 {}", request.service)?;
        self.go_on(alloc, &line)
    }

    /// Another till connects. Once the terminal is ready, it asks what became of the request, sends it again, and asks once more what
    /// became of it. How many commands had been sent before that.
    fn recover(&mut self, alloc: Global, request: &Request, till: u64) -> Result<usize, Fail> {
        self.open(alloc, till)?;
        let commands = self.commands(request);
        self.ask_and_repeat(alloc, request, till)?;
        self.ask_again(alloc, request, till)?;
        Ok(commands)
    }

    /// How often the request was sent to the terminal.
    fn commands(&self, request: &Request) -> usize {
        self.log.matches(request.command).count()
    }

    /// How often a stop was sent to it.
    fn stops(&self) -> usize {
        self.log.matches("pt 0 out 06b000").count()
    }

    /// How often the power has failed.
    fn failures(&self) -> usize {
        self.log.matches("\npower ").count()
    }

    /// How often the terminal has booked the request.
    fn booked(&self, request: &Request) -> usize {
        let mut count: usize = 0;
        for entry in self.terminal.book().as_slice() {
            if entry.reversal == request.is_reversal {
                count = count.saturating_add(1);
            }
        }
        count
    }

    /// Whether the log has this line.
    fn has(&self, alloc: Global, line: &str) -> Result<bool, Fail> {
        let mut wanted = String::new(alloc);
        push_paid(alloc, &mut wanted, line)?;
        Ok(self.log.contains(wanted.as_str()))
    }

    /// Whether the log has a line that begins so, and then has this end and names this.
    fn says(&self, alloc: Global, begins: &str, end: &str, named: &str) -> Result<bool, Fail> {
        let line = format!(in alloc; "{begins} {end} {named}")?;
        self.has(alloc, &line)
    }

    /// Whether the log has a line that begins so, and ends as the terminal's book says.
    fn agrees(&self, alloc: Global, request: &Request, begins: &str) -> Result<bool, Fail> {
        if self.booked(request) > 0 {
            return self.says(alloc, begins, "Success", request.done);
        }
        let is_declined = self.says(alloc, begins, "Cancel", request.undone)?;
        Ok(is_declined || self.says(alloc, begins, "Aborted", request.undone)?)
    }

    /// Whether the reply to the request agrees with the book.
    fn reply_agrees(&self, alloc: Global, request: &Request, till: u64) -> Result<bool, Fail> {
        let begins = format!(in alloc; "{} {till} {}", request.reply, request.service)?;
        self.agrees(alloc, request, &begins)
    }

    /// Whether the reply to the status of this ServiceID agrees with the book.
    fn status_agrees(
        &self,
        alloc: Global,
        request: &Request,
        till: u64,
        own: u64,
    ) -> Result<bool, Fail> {
        let begins = format!(in alloc; "{} {till} {own} {}", request.repeated, request.service)?;
        self.agrees(alloc, request, &begins)
    }

    /// Whether the request was not found by the first status.
    fn is_unknown(&self, alloc: Global, till: u64) -> Result<bool, Fail> {
        let line = format!(in alloc; "fails TransactionStatus {till} 8 NotFound")?;
        self.has(alloc, &line)
    }
}

/// A terminal that does this at its first payment.
fn terminal_playing(alloc: Global, play: Play) -> Result<Terminal, Fail> {
    let plays = vec![in alloc; play]?;
    terminal_of(alloc, Plays::new(plays))
}

/// This script, which isn't played yet, and this terminal.
fn trial_with(alloc: Global, script: String, terminal: Terminal) -> Trial {
    Trial {
        script,
        log: String::new(alloc),
        terminal,
        sent: String::new(alloc),
        is_cut: false,
    }
}

/// This script, which isn't played yet, and a terminal that does this at its first payment.
fn trial_of(alloc: Global, script: &str, play: Play) -> Result<Trial, Fail> {
    let script = String::from_str(alloc, script)?;
    let terminal = terminal_playing(alloc, play)?;
    Ok(trial_with(alloc, script, terminal))
}

/// The replies that another till has got agree with the terminal's book. Whether the request was not found.
fn check_replies(
    rt: &impl Abort,
    alloc: Global,
    trial: &Trial,
    request: &Request,
    till: u64,
) -> Result<bool, Fail> {
    let is_unknown = trial.is_unknown(alloc, till)?;
    let first_agrees = trial.status_agrees(alloc, request, till, 8)?;
    let again_agrees = trial.reply_agrees(alloc, request, till)?;
    let last_agrees = trial.status_agrees(alloc, request, till, 9)?;
    let log = trial.log.as_str();
    assert!(rt; first_agrees != is_unknown, "the first status: {log}");
    assert!(rt;
        again_agrees && last_agrees,
        "the reply and the last status: {log}"
    );
    Ok(is_unknown)
}

/// The request was sent and booked once at most, and no stop was sent for another: a repeat sends the request only where it was not found,
/// and then it had not been sent.
fn check_commands(rt: &impl Abort, trial: &Trial, case: &Case, before: usize, is_unknown: bool) {
    let request = &case.request;
    let log = trial.log.as_str();
    let wanted = if is_unknown { (0, 1) } else { (before, before) };
    assert_eq!(rt; (before, trial.commands(request)), wanted, "{log}");
    assert!(rt; before <= 1 && trial.booked(request) <= 1, "once: {log}");
    assert!(rt; trial.stops() <= case.stops, "stops: {log}");
}

/// Another till gets what the terminal's book says. Whether the request was not found.
fn check_end(
    rt: &impl Abort,
    alloc: Global,
    trial: &mut Trial,
    case: &Case,
    till: u64,
) -> Result<bool, Fail> {
    let before = trial.recover(alloc, &case.request, till)?;
    let is_unknown = check_replies(rt, alloc, trial, &case.request, till)?;
    check_commands(rt, trial, case, before, is_unknown);
    Ok(is_unknown)
}

/// After how many calls the power fails, and what it leaves.
#[derive(Clone, Copy)]
struct Failure<'a> {
    calls: u64,
    image: &'a str,
}

/// Lets the power fail, and adds these lines.
fn fail(alloc: Global, trial: &mut Trial, failure: Failure<'_>, lines: &str) -> Result<(), Fail> {
    let Failure { calls, image } = failure;
    let lines = format!(in alloc; "power {calls} {image}{lines}")?;
    trial.go_on(alloc, &lines)
}

/// The power fails in this trial once more, if another till doesn't get all before. Whether it does.
fn fails_again(
    rt: &impl Abort,
    alloc: Global,
    trial: &mut Trial,
    case: &Case,
    failure: Failure<'_>,
) -> Result<bool, Fail> {
    fail(alloc, trial, failure, "")?;
    trial.recover(alloc, &case.request, 2)?;
    if trial.failures() < 2 {
        return Ok(false);
    }
    check_end(rt, alloc, trial, case, 3)?;
    Ok(true)
}

/// As [`fails_again`], of a trial of this script.
fn script_fails_again(
    rt: &impl Abort,
    alloc: Global,
    script: &str,
    case: &Case,
    failure: Failure<'_>,
) -> Result<bool, Fail> {
    let mut trial = trial_of(alloc, script, case.play)?;
    fails_again(rt, alloc, &mut trial, case, failure)
}

/// The power, which fails in this script, fails again after each call of the run that comes next, until it no longer does.
fn check_next(
    rt: &impl Abort,
    alloc: Global,
    script: &str,
    case: &Case,
    image: &str,
) -> Result<(), Fail> {
    for calls in 0..MOST_CALLS {
        if !script_fails_again(rt, alloc, script, case, Failure { calls, image })? {
            assert!(rt; calls > FEWEST_CALLS, "after {calls} calls of {script}");
            return Ok(());
        }
    }
    Err(Fail::from("the power fails again and again"))
}

/// A till asks for what comes before the request of a case and for that request, in which the power fails.
fn play_request(
    alloc: Global,
    trial: &mut Trial,
    case: &Case,
    failure: Failure<'_>,
) -> Result<(), Fail> {
    let request = &case.request;
    let (word, service, content) = (request.word, request.service, request.content);
    let after = case.after;
    trial.go_on(alloc, case.before)?;
    let lines = format!(in alloc; "\n{word} 1 {service} {content}{after}")?;
    fail(alloc, trial, failure, &lines)
}

/// The script of a case, in which the power fails in the request.
fn failing_trial(alloc: Global, case: &Case, failure: Failure<'_>) -> Result<Trial, Fail> {
    let mut trial = trial_of(alloc, READY, case.play)?;
    play_request(alloc, &mut trial, case, failure)?;
    if trial.failures() == 0 {
        trial.go_on(alloc, case.later)?;
    }
    Ok(trial)
}

/// The power doesn't fail in the request of a case.
fn check_whole(rt: &impl Abort, trial: &Trial, case: &Case) {
    let script = trial.script.as_str();
    assert_eq!(rt; trial.failures(), 0, "of {script}");
    assert_eq!(rt; trial.stops(), case.stops, "of {script}");
}

/// The power fails in the request of a case, and no more. A payment that was stopped isn't said to be cancelled.
fn check_once(
    rt: &impl Abort,
    alloc: Global,
    trial: &mut Trial,
    case: &Case,
    script: &str,
) -> Result<(), Fail> {
    assert_eq!(rt; trial.failures(), 1, "of {script}");
    let is_unknown = check_end(rt, alloc, trial, case, 2)?;
    let is_cancelled = trial.log.contains("\"Cancel\"");
    assert!(rt;
        is_unknown || case.stops == 0 || !is_cancelled,
        "of {script}"
    );
    Ok(())
}

/// The power fails in the request of a case, and then once more or not.
fn check_failed(
    rt: &impl Abort,
    alloc: Global,
    trial: &mut Trial,
    case: &Case,
) -> Result<(), Fail> {
    let script = trial.script.clone()?;
    check_once(rt, alloc, trial, case, &script)?;
    check_next(rt, alloc, &script, case, "old")?;
    check_next(rt, alloc, &script, case, "new")
}

/// The power fails after so many calls of a request, unless that is after its end.
fn check_failure(
    rt: &impl Abort,
    alloc: Global,
    case: &Case,
    failure: Failure<'_>,
) -> Result<(), Fail> {
    let mut trial = failing_trial(alloc, case, failure)?;
    if failure.calls == case.whole {
        check_whole(rt, &trial, case);
        return Ok(());
    }
    check_failed(rt, alloc, &mut trial, case)
}

/// The power fails after each call of a request, until it no longer does, and leaves each image.
fn check_case(rt: &impl Abort, alloc: Global, case: &Case) -> Result<(), Fail> {
    for image in IMAGES {
        for calls in 0..=case.whole {
            check_failure(rt, alloc, case, Failure { calls, image })?;
        }
    }
    Ok(())
}

#[test]
fn an_approved_payment(rt: HostRuntime) -> Result<(), Fail> {
    check_case(&rt, rt.alloc(), &APPROVED)
}

#[test]
fn a_declined_payment(rt: HostRuntime) -> Result<(), Fail> {
    check_case(&rt, rt.alloc(), &DECLINED)
}

#[test]
fn a_booked_payment_that_is_cut(rt: HostRuntime) -> Result<(), Fail> {
    check_case(&rt, rt.alloc(), &CUT_AFTER_BOOK)
}

#[test]
fn a_reversal(rt: HostRuntime) -> Result<(), Fail> {
    check_case(&rt, rt.alloc(), &REVERSED)?;
    check_case(&rt, rt.alloc(), &REVERSAL_LOST)
}

#[test]
fn an_aborted_payment(rt: HostRuntime) -> Result<(), Fail> {
    check_case(&rt, rt.alloc(), &ABORTED_TOO_LATE)?;
    check_case(&rt, rt.alloc(), &ABORTED)
}
