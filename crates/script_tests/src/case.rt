//! A case: what is played, and what must be found.
use row_texts::{halves, push_form, push_played, push_row};
use std::alloc::{AllocError, Global};
use std::test::Fail;

/// A case, as its lines have said it so far.
#[derive(Drop)]
pub(crate) struct Case {
    pub(crate) words: String,
    pub(crate) configuration: String,
    pub(crate) script: String,
    /// The words of the file that the disk has at first; none where there is no file.
    pub(crate) file: String,
    /// Whether the engine runs alone, unless it serves.
    pub(crate) is_of_runs: bool,
    /// After how many calls the power fails.
    pub(crate) calls: Option<u64>,
    /// Whether the power fails once its runs have ended, and the engine runs again.
    pub(crate) is_begun_again: bool,
    /// Whether only what was linked and sent is compared.
    pub(crate) only_sends: bool,
    /// Whether nothing may be read of the input.
    pub(crate) is_unread: bool,
    /// What must be found.
    pub(crate) wanted: String,
    /// The status that must be returned.
    pub(crate) status: u8,
    /// The moment that the script has set last.
    now: String,
    /// Whether the lines of the script add nothing to what is wanted.
    is_plain: bool,
    /// Whether the status is said.
    is_ended: bool,
}

impl Case {
    /// A case of which nothing is said yet, with these words and at this moment.
    fn new(alloc: Global, words: String, now: String) -> Case {
        Case {
            words,
            configuration: String::new(alloc),
            script: String::new(alloc),
            file: String::new(alloc),
            is_of_runs: false,
            calls: None,
            is_begun_again: false,
            only_sends: false,
            is_unread: false,
            wanted: String::new(alloc),
            status: 0,
            now,
            is_plain: false,
            is_ended: false,
        }
    }

    /// A replay at moment 0.
    fn replay(alloc: Global) -> Result<Case, AllocError> {
        let words = String::from_str(alloc, "replay")?;
        let now = String::from_str(alloc, "0")?;
        Ok(Case::new(alloc, words, now))
    }

    /// Whether the words ask for the mode `serve`.
    pub(crate) fn is_served(&self) -> bool {
        self.words.contains("serve")
    }

    /// Takes a line, in the short form, of the script or of what is wanted.
    fn take_short(&mut self, alloc: Global, line: &str) -> Result<(), Fail> {
        push_row(
            alloc,
            &mut self.script,
            &mut self.wanted,
            &mut self.now,
            line,
        )
    }

    /// Takes the status of a line of what is wanted, if it has one.
    fn take_status(&mut self, logged: &str) -> Result<(), Fail> {
        if logged.starts_with("status") {
            self.is_ended = true;
        }
        if let Some(status) = logged.strip_prefix("status ") {
            self.status = status.parse::<u8>()?;
        }
        Ok(())
    }

    /// Takes a line of what is wanted.
    fn take_wanted(&mut self, alloc: Global, line: &str, logged: &str) -> Result<(), Fail> {
        self.take_status(logged)?;
        if self.is_plain {
            push_form(&mut self.wanted, "%\n", &[logged])?;
            return Ok(());
        }
        self.take_short(alloc, line)
    }

    /// Takes a line of the script.
    fn take_played(&mut self, alloc: Global, line: &str) -> Result<(), Fail> {
        if line == "~" {
            self.script.push('\n')?;
            return Ok(());
        }
        if self.is_plain {
            push_played(&mut self.script, line)?;
            return Ok(());
        }
        self.take_short(alloc, line)
    }

    /// Takes a byte of a till as a chunk of its own.
    fn take_byte(&mut self, alloc: Global, till: &str, byte: u8) -> Result<(), Fail> {
        let line = format!(in alloc; "till {till} {byte:02x}")?;
        self.take_played(alloc, line.as_str())
    }

    /// Takes a till and its message, each byte of whose frame comes in a chunk of its own.
    fn take_bytes(&mut self, alloc: Global, words: &str) -> Result<(), Fail> {
        let (till, message) = halves(words);
        for byte in u32::try_from(message.len())?.to_be_bytes() {
            self.take_byte(alloc, till, byte)?;
        }
        for byte in message.bytes() {
            self.take_byte(alloc, till, byte)?;
        }
        Ok(())
    }

    /// Takes a line of the script or of what is wanted.
    fn take_row(&mut self, alloc: Global, line: &str) -> Result<(), Fail> {
        match line.strip_prefix("> ") {
            Some(logged) => self.take_wanted(alloc, line, logged),
            None => self.take_played(alloc, line),
        }
    }

    /// Takes the words of the command.
    fn take_words(&mut self, alloc: Global, words: &str) -> Result<(), AllocError> {
        self.words = String::from_str(alloc, words)?;
        Ok(())
    }

    /// Takes the words of the file that the disk has at first.
    fn take_file(&mut self, alloc: Global, words: &str) -> Result<(), AllocError> {
        self.is_of_runs = true;
        self.file = String::from_str(alloc, words)?;
        Ok(())
    }

    /// Takes after how many calls the power fails.
    fn take_stop(&mut self, calls: &str) -> Result<(), Fail> {
        self.calls = Some(calls.parse::<u64>()?);
        Ok(())
    }

    /// The script's last line has no end.
    fn take_unended(&mut self) {
        let _end = self.script.pop();
    }

    /// Takes a line that says how the case is read, or else one of the script or of what is wanted.
    fn take_word(&mut self, alloc: Global, line: &str) -> Result<(), Fail> {
        match line {
            "plain" => self.is_plain = true,
            "again" => self.is_begun_again = true,
            "only sends" => self.only_sends = true,
            "unread" => self.is_unread = true,
            "unended" => self.take_unended(),
            _ => return self.take_row(alloc, line),
        }
        Ok(())
    }

    /// Takes a line that says something.
    fn take_said(&mut self, alloc: Global, line: &str) -> Result<(), Fail> {
        let (word, rest) = halves(line);
        match word {
            "for" => Ok(()),
            "words" => Ok(self.take_words(alloc, rest)?),
            "config" => Ok(push_form(&mut self.configuration, "%\n", &[rest])?),
            "file" => Ok(self.take_file(alloc, rest)?),
            "stop" => self.take_stop(rest),
            "bytes" => self.take_bytes(alloc, rest),
            _ => self.take_word(alloc, line),
        }
    }

    /// Takes a line.
    fn take(&mut self, alloc: Global, line: &str) -> Result<(), Fail> {
        if line.is_empty() || line.starts_with('#') {
            return Ok(());
        }
        self.take_said(alloc, line)
    }

    /// Adds how it ends where the status isn't said: with the script's stop.
    fn end(&mut self) -> Result<(), AllocError> {
        if self.is_ended {
            return Ok(());
        }
        push_form(&mut self.wanted, "at %\nstop\n", &[&self.now])?;
        if self.is_served() {
            self.wanted.push_str("--\n")?;
        }
        self.wanted.push_str("status 0\n")
    }

    /// Takes all its lines.
    fn take_all(&mut self, alloc: Global, lines: &str) -> Result<(), Fail> {
        for line in lines.split('\n') {
            self.take(alloc, line)?;
        }
        self.end()?;
        Ok(())
    }

    /// The case of these lines.
    pub(crate) fn of(alloc: Global, lines: &str) -> Result<Case, Fail> {
        let mut case = Case::replay(alloc)?;
        case.take_all(alloc, lines)?;
        Ok(case)
    }
}
