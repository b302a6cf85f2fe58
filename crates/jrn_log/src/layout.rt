//! The layout of a journal's file: slots, one after another, each a gate and a body.

/// The size of a slot of the journal, in bytes: a gate of one byte, and a body.
pub const SLOT_SIZE: usize = 256;

/// The size of a body, in bytes.
pub(crate) const BODY_SIZE: usize = SLOT_SIZE - 1;

/// The slots of the journal that are read at once: one page of 4,096 bytes.
pub const SLOTS_OF_CHUNK: usize = 16;

/// The gate of an open slot of the journal.
pub const OPEN: u8 = 0xA5;

/// The gate of a closed slot.
pub(crate) const CLOSED: u8 = 0x00;
