//! The gated journal: bodies of 255 bytes in a file, of which a power failure leaves the old ones, or these and the new.
#![tactic(auto)]

ghost use Rattle.jrn_log.specs.Laws.{EachHasSlots, SlotsAreOne, DecodedAreSlots, AppendKeepsImages, AppendRests};
ghost use Rattle.jrn_log.specs.StepExample.{NoFileIsOpened, FileIsRead, LongFileIsNotRead, LengthFails, SyncComesFirst};

mod fault;
mod foreign;
mod journal;
mod layout;
mod read;
mod slots;
mod write;

pub use fault::{AppendFault, OpenFault};
pub use foreign::{can_be_journal, law_file_examples, law_files};
pub use journal::Journal;
pub use layout::{OPEN, SLOT_SIZE, SLOTS_OF_CHUNK};
pub use slots::{read_part, read_slots};

/// Each file has one list of the bodies of its open slots, which can be computed.
pub fn law_slots()
    ensures each { EachHasSlots }
    ensures one { SlotsAreOne }
    ensures decoded { DecodedAreSlots }
{}

/// An append to a log at rest: at each turn, whatever bytes a torn write leaves, a power failure leaves the old bodies,
/// or the new ones once the gate was written. After its last turn the log is at rest with the new ones.
pub fn law_append()
    ensures images { AppendKeepsImages }
    ensures rests { AppendRests }
{}

/// Openings, step by step: of no file, of a file with two bodies, of one that is too long, and of one whose length can't be
/// asked. None begins with anything but the sync.
pub fn law_opening_steps()
    ensures no_file { NoFileIsOpened }
    ensures read { FileIsRead }
    ensures long { LongFileIsNotRead }
    ensures fails { LengthFails }
    ensures sync_first { SyncComesFirst }
{}
