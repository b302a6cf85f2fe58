//! The six dialogues, by the commands that begin them.
ghost use Rattle.std.specs.Prelude.{◌≡◌, ◌≢◌, Some};
ghost use Rattle.zvt_talk.specs.Dialogue.{is_display, dialogue_kind_of};

use zvt_msg::Command;

/// Which dialogue it is.
#[derive(Clone, Copy, PartialEq, Eq)]
pub(crate) enum DialogueKind {
    /// `06 00`
    Registration,
    /// `06 20`, asks for the terminal's last transaction.
    Enquiry,
    /// `06 01`
    Payment,
    /// `06 30`
    Reversal,
    /// `06 50`
    EndOfDay,
    /// `06 E0`
    Display,
}

impl DialogueKind {
    pub(crate) fn of(command: &Command) -> DialogueKind
        requires { command.now ≢ Command.Stop }
        ensures { dialogue_kind_of command.now ≡ Some result }
    {
        match command {
            Command::Register { .. } => DialogueKind::Registration,
            Command::Authorise { .. } => DialogueKind::Payment,
            Command::Enquire { .. } => DialogueKind::Enquiry,
            Command::Reverse { .. } => DialogueKind::Reversal,
            Command::EndOfDay { .. } => DialogueKind::EndOfDay,
            Command::Stop => unreachable!(),
            Command::Show { .. } => DialogueKind::Display,
        }
    }

    pub(crate) fn is_display(self) -> bool
        ensures { result ≡ is_display self }
    {
        matches!(self, DialogueKind::Display)
    }
}
