//! How far a dialogue is.
ghost use Rattle.std.specs.Prelude.{◌≡◌};
ghost use Rattle.zvt_msg.specs.Message.{value_of};
ghost use Rattle.zvt_talk.specs.TalkSteps.{may_send_stop, next_phase, was_stop_sent, phase_after_stop_wished};

use crate::Heard;
use crate::dialogue_kind::DialogueKind;
use crate::statuses::Statuses;
use zvt_msg::PtMessage;

#[derive(Clone, Copy, PartialEq, Eq)]
pub(crate) enum Phase {
    /// The terminal has not acknowledged the command.
    Asked {
        /// A stop is wished, and is sent once the command is acknowledged.
        stop_wished: bool,
    },
    /// The command is acknowledged.
    Begun {
        /// `06 B0` was sent.
        stop_sent: bool,
        statuses: Statuses,
    },
    Ended {
        /// `06 B0` was sent.
        stop_sent: bool,
    },
}

impl Phase {
    /// The phase after a message that is taken.
    pub(crate) fn after(self, dialogue_kind: DialogueKind, message: &PtMessage<'_>) -> Phase
        ensures { result ≡ next_phase dialogue_kind self (value_of message.now) }
    {
        match self {
            Phase::Asked { stop_wished } => match message {
                PtMessage::Ack if !dialogue_kind.is_display() => Phase::Begun {
                    stop_sent: stop_wished,
                    statuses: Statuses::none(),
                },
                _ => Phase::Ended { stop_sent: false },
            },
            Phase::Begun {
                stop_sent,
                statuses,
            } => match message {
                PtMessage::Status(fields) => Phase::Begun {
                    stop_sent,
                    statuses: statuses.with(*fields),
                },
                PtMessage::Completion | PtMessage::Abort(_) => Phase::Ended { stop_sent },
                _ => self,
            },
            Phase::Ended { .. } => self,
        }
    }

    /// The phase after a stop is wished.
    pub(crate) fn after_stop_wished(self) -> Phase
        ensures { result ≡ phase_after_stop_wished self }
    {
        match self {
            // A terminal takes no other command before it has acknowledged this one, so the stop waits.
            Phase::Asked { .. } => Phase::Asked { stop_wished: true },
            Phase::Begun { statuses, .. } => Phase::Begun {
                stop_sent: true,
                statuses,
            },
            Phase::Ended { .. } => self,
        }
    }

    /// Whether `06 B0` is to be sent when a stop is wished.
    pub(crate) fn may_send_stop(self) -> bool
        ensures { result ≡ may_send_stop self }
    {
        matches!(
            self,
            Phase::Begun {
                stop_sent: false,
                ..
            }
        )
    }

    /// Whether `06 B0` was sent.
    pub(crate) fn was_stop_sent(self) -> bool
        ensures { result ≡ was_stop_sent self }
    {
        match self {
            Phase::Asked { .. } => false,
            Phase::Begun { stop_sent, .. } | Phase::Ended { stop_sent } => stop_sent,
        }
    }
}
