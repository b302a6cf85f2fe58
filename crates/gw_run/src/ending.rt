//! How the top call ends.
ghost use Rattle.std.specs.Prelude.{◌≡◌};
ghost use Rattle.gw_run.specs.Top.{status_of};

/// How the top call ends: its status and the line before the status line.
#[derive(Clone, Copy, Debug, PartialEq, Eq)]
pub enum Ending {
    /// The script was played to its end: 0.
    Played,
    /// The words aren't accepted: 64.
    Words,
    /// The script is above its limit: 65.
    Long,
    /// A line of the script is of another form: 65.
    Line(u32),
    /// The input could not be read: 66.
    Input,
    /// The site could not be opened: 69.
    NotOpened,
    /// Memory was refused: 71.
    Memory,
    /// The output could not be written: 73.
    OutputFailed,
    /// A call on the disk has failed: 74.
    Disk,
    /// The journal's file has so many bytes, and is too long for the slots, or leaves fewer free than keys are open: 76.
    LongJournal(u64),
    /// The journal's file ends in this slot, which is open: 76.
    CutJournal(u32),
    /// This slot of the journal is open and has no record, or one that may not follow those before it: 76.
    BadSlot(u32),
}

impl Ending {
    /// The status.
    pub(crate) fn status(self) -> u8
        ensures { result ≡ status_of self }
    {
        match self {
            Ending::Played => 0,
            Ending::Words => 64,
            Ending::Long | Ending::Line(_) => 65,
            Ending::Input => 66,
            Ending::NotOpened => 69,
            Ending::Memory => 71,
            Ending::OutputFailed => 73,
            Ending::Disk => 74,
            Ending::LongJournal(_) | Ending::CutJournal(_) | Ending::BadSlot(_) => 76,
        }
    }
}
