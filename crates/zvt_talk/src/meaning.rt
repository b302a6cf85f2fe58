//! What a message of the terminal means.
ghost use Rattle.std.specs.Prelude.{◌≡◌};
ghost use Rattle.zvt_talk.specs.Talk.{is_end};

use gw_base::Figures;

/// What a message means for the dialogue that takes it. `Approved`, `Done`, `Told`, `Declined` and `Unclear` end it.
#[derive(Clone, Copy, Debug, PartialEq, Eq)]
pub enum Heard {
    /// The command is acknowledged, and the dialogue goes on. Where `stop` is set a stop was wished, and `06 B0` is to
    /// be sent now.
    Begun {
        stop: bool,
    },
    /// An intermediate status with its code, to be shown.
    Note(u8),
    /// A line to print.
    Line,
    /// A block of lines to print.
    Block,
    /// A status.
    Seen,
    /// A payment or a reversal is approved.
    Approved(Figures),
    /// A registration, an end of day or a display is done.
    Done,
    /// The terminal's last transaction: its trace number, its figures where it was approved, and its result code. The
    /// trace number is 0 where there is none.
    Told {
        number: u32,
        approved: Option<Figures>,
        code: u8,
    },
    /// Declined, with the trace number of the last status.
    Declined {
        code: u8,
        number: Option<u32>,
    },
    /// Nothing is known of how it ended.
    Unclear,
    /// The message has no effect.
    Stray,
}

impl Heard {
    /// Whether the dialogue has ended with this.
    pub fn is_end(&self) -> bool
        ensures { result ≡ is_end self.now }
    {
        match self {
            Heard::Approved(_)
            | Heard::Done
            | Heard::Told { .. }
            | Heard::Declined { .. }
            | Heard::Unclear => true,
            Heard::Begun { .. }
            | Heard::Note(_)
            | Heard::Line
            | Heard::Block
            | Heard::Seen
            | Heard::Stray => false,
        }
    }
}
