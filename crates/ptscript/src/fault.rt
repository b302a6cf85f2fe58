//! Why the program ends before its time.
use std::alloc::AllocError;

/// Why the program ends before its time.
#[derive(Clone, Copy, Debug, PartialEq, Eq)]
pub(crate) enum Fault {
    /// The words are others.
    Words,
    /// It can't listen at the address.
    Listen,
    /// There is no memory.
    Memory,
    /// Standard output can't be written.
    Output,
}

impl From<AllocError> for Fault {
    fn from(_error: AllocError) -> Fault {
        Fault::Memory
    }
}

impl Fault {
    /// The exit status.
    pub(crate) fn status(self) -> u8 {
        match self {
            Fault::Words => 64,
            Fault::Listen => 69,
            Fault::Memory => 71,
            Fault::Output => 73,
        }
    }

    /// The line that says so; none where nothing can be written.
    pub(crate) fn line(self) -> &'static str {
        match self {
            Fault::Words => "words\n",
            Fault::Listen => "listen\n",
            Fault::Memory => "memory\n",
            Fault::Output => "",
        }
    }
}
