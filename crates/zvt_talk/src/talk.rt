//! A dialogue, by the few facts that are remembered of it.
ghost use Rattle.std.specs.Prelude.{◌≡◌, ◌≢◌, not, ◌&&◌, List, [], ◌∷◌, ◌++◌, IsTrue, IfSome};
ghost use Rattle.gw_base.specs.Moment.{IsMoment};
ghost use Rattle.zvt_msg.specs.Message.{value_of};
ghost use Rattle.zvt_talk.specs.Dialogue.{Dialogue, dialogue_of};
ghost use Rattle.zvt_talk.specs.Came.{Came, Message, StopWished, messages, deadline, is_begun, is_stop_sent};
ghost use Rattle.zvt_talk.specs.Talk.{meaning, talk_goes_on, is_end, talk_after};
ghost use Rattle.zvt_talk.specs.TalkSteps.{meaning_for_talk, may_send_stop, next_talk, was_stop_sent, talk_after_stop_wished};

use crate::Heard;
use crate::dialogue_kind::DialogueKind;
use crate::phase::Phase;
use crate::table::{meaning_when_asked, meaning_when_begun};
use std::marker::Model;
use zvt_msg::{Command, PtMessage};

/// One dialogue: a command that was sent, and the few facts that are remembered of what came since. The messages themselves
/// aren't, so that a dialogue takes no memory, however long it lasts; the contracts speak of all that came.
#[derive(Clone, Copy, PartialEq, Eq)]
pub struct Talk {
    dialogue_kind: DialogueKind,
    /// The result code by which the terminal reports to an enquiry that it has no transaction.
    none: u8,
    /// Seconds from one message to the next.
    command_time: u32,
    deadline: i64,
    phase: Phase,
}

impl Model for Talk {
    ghost use Rattle.zvt_talk.specs.Talk.{TalkFacts};

    ghost Value = { TalkFacts };

    ghost view = { λ t. record { dialogue_kind = t.dialogue_kind; none = t.none; command_time = t.command_time; deadline = t.deadline; phase = t.phase } };

    ghost inverse = { λ t. record { dialogue_kind = t.dialogue_kind; none = t.none; command_time = t.command_time; deadline = t.deadline; phase = t.phase } };
}

impl Talk {
    /// The dialogue that begins with this command, sent now. By the result code `none` the terminal reports to an enquiry
    /// that it has no transaction. The first message is due in `answer` seconds, and each message in `command_time` seconds from the
    /// one before.
    pub fn start(command: &Command, none: u8, answer: u32, command_time: u32, now: i64) -> Talk
        requires not_stop { command.now ≢ Command.Stop }
        requires moment { IsMoment now }

        // After nothing that came.
        ensures talk { IfSome (dialogue_of command.now none answer command_time now) (λ dialogue. result ≡ talk_after dialogue []) }
        ensures goes_on { IsTrue (talk_goes_on result) }
    {
        Talk {
            dialogue_kind: DialogueKind::of(command),
            none,
            command_time,
            deadline: now + i64::from(answer),
            phase: Phase::Asked { stop_wished: false },
        }
    }

    /// Takes a message of the terminal, which came now, and returns what it means.
    pub fn take(&mut self, message: &PtMessage<'_>, now: i64) -> Heard
        requires goes_on { IsTrue (talk_goes_on self.old) }
        requires moment { IsMoment now }

        // After all that came in a dialogue the message means what the table says, and then it is part of what came.
        ensures meaning { (dialogue : Dialogue) (came : List Came) → self.old ≡ talk_after dialogue came
            → result ≡ meaning dialogue came (value_of message.now) }
        ensures added { (dialogue : Dialogue) (came : List Came) → self.old ≡ talk_after dialogue came
            → self.new ≡ talk_after dialogue (came ++ Message (value_of message.now) now ∷ []) }
        ensures ends { talk_goes_on self.new ≡ not (is_end result) }

        // The meaning and the talk after it, by the few facts that are remembered.
        ensures computes { result ≡ meaning_for_talk self.old (value_of message.now) }
        ensures next { self.new ≡ next_talk self.old (value_of message.now) now }
    {
        let heard = self.heard(message);
        self.keep(message, now);
        heard
    }

    /// Keeps what the message adds to the few facts.
    fn keep(&mut self, message: &PtMessage<'_>, now: i64)
        requires { IsMoment now }
        ensures { self.new ≡ next_talk self.old (value_of message.now) now }
    {
        // A message outside the table changes nothing, so that it doesn't put off the deadline either.
        if matches!(message, PtMessage::Other) {
            return;
        }
        self.deadline = now + i64::from(self.command_time);
        self.phase = self.phase.after(self.dialogue_kind, message);
    }

    /// What the message means in the phase that the dialogue is in.
    fn heard(&self, message: &PtMessage<'_>) -> Heard
        ensures { result ≡ meaning_for_talk self.now (value_of message.now) }
    {
        match self.phase {
            Phase::Asked { stop_wished } => meaning_when_asked(
                self.dialogue_kind,
                stop_wished,
                message,
            ),
            Phase::Begun { statuses, .. } => meaning_when_begun(
                self.dialogue_kind,
                self.none,
                statuses,
                message,
            ),
            Phase::Ended { .. } => Heard::Stray,
        }
    }

    /// Wishes a stop of what the dialogue serves. True where `06 B0` is to be sent now; where the command isn't acknowledged
    /// yet, [`Heard::Begun`] says later that it is.
    pub fn abort(&mut self) -> bool
        // Where the dialogue is begun and goes on, and `06 B0` was not sent yet.
        ensures sent { (dialogue : Dialogue) (came : List Came) → self.old ≡ talk_after dialogue came
            → result ≡ (is_begun dialogue.dialogue_kind (messages came) && not (is_stop_sent dialogue.dialogue_kind came)) }
        ensures added { (dialogue : Dialogue) (came : List Came) → self.old ≡ talk_after dialogue came
            → self.new ≡ talk_after dialogue (came ++ StopWished ∷ []) }

        // Whether to send it and the talk after it, by the few facts that are remembered.
        ensures computes { result ≡ may_send_stop self.old.phase }
        ensures next { self.new ≡ talk_after_stop_wished self.old }
    {
        let stop = self.phase.may_send_stop();
        self.keep_stop_wished();
        stop
    }

    /// Keeps that a stop is wished.
    fn keep_stop_wished(&mut self)
        ensures { self.new ≡ talk_after_stop_wished self.old }
    {
        self.phase = self.phase.after_stop_wished();
    }

    /// Whether `06 B0` was sent in this dialogue.
    pub fn aborted(&self) -> bool
        ensures sent { (dialogue : Dialogue) (came : List Came) → self.now ≡ talk_after dialogue came
            → result ≡ is_stop_sent dialogue.dialogue_kind came }
        ensures computes { result ≡ was_stop_sent self.now.phase }
    {
        self.phase.was_stop_sent()
    }

    /// The moment at which the terminal has been silent for too long.
    pub fn deadline(&self) -> i64
        ensures due { (dialogue : Dialogue) (came : List Came) → self.now ≡ talk_after dialogue came
            → result ≡ deadline dialogue came }
        ensures computes { result ≡ self.now.deadline }
    {
        self.deadline
    }
}
