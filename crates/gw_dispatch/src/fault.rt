//! Why a run's round could not be finished.

/// Why a round could not be finished; the run ends with it.
#[derive(Clone, Copy, Debug, PartialEq, Eq)]
pub enum TurnFault {
    /// A call on the disk has failed. No further call was made.
    Disk,
    /// Memory was refused.
    Memory,
}
