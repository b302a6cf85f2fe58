//! The limits of the gateway, each stated once.

/// The most tills that may be connected at once. Each has a descriptor and a buffer that grows to its longest message, and
/// whoever reaches the port can connect: this is more than a shop has, and bounds both.
pub const MOST_TILLS: usize = 64;

/// The most terminals of a gateway. What each needs is taken at the start, so that no memory is asked for while one pays.
pub const MOST_TERMINALS: usize = 32;

/// The most requests that may wait for one terminal. After more than these a request would seldom be begun before its
/// time is over, and its till is helped more by hearing at once that the terminal is busy.
pub const MOST_WAITING: u8 = 8;

/// The longest time that a request waits, and that a terminal may be silent while it runs a command, in seconds. A cardholder
/// may be slow and an end of day may be long; after an hour nobody waits at the till.
pub const LONGEST_WAIT: u16 = 3_600;

/// The longest time that a terminal is given to acknowledge or refuse a command, in seconds. No cardholder has a part in
/// this: a terminal that is silent for a minute is lost, and the requests that wait for it are to hear so.
pub const LONGEST_ANSWER: u16 = 60;

/// The most bytes that a site brings of a connection at once. They come into one buffer of this size, which every poll
/// uses again; a message that is longer comes in several chunks, so that one till doesn't keep the others waiting.
pub const LONGEST_CHUNK: usize = 4_096;

/// The size of the length before each message of a till, in bytes.
pub const FRAME_LENGTH_SIZE: usize = 4;

/// The most bytes of a till's message, without its length.
pub const LONGEST_PAYLOAD: u32 = 65_536;

/// The most arrays and objects of JSON text that may be open at once: reading is no deeper than this, so that no message
/// exhausts the stack.
pub const MOST_LEVELS: usize = 32;

/// The most bytes of an APDU's data that a terminal may send. ZVT allows 65,535; what a terminal sends to be printed is far
/// below, and a reader's buffer is taken once.
pub const LONGEST_APDU_DATA: u16 = 12_000;

/// The slots of a journal: at least two, so that an intent has room for its outcome.
pub const FEWEST_SLOTS: u32 = 2;

/// The most slots of a journal, of 256 bytes each.
pub const MOST_SLOTS: u32 = 1_000_000;

/// The greatest amount, in minor units: what twelve digits of a ZVT amount hold.
pub const GREATEST_AMOUNT: u64 = 999_999_999_999;

/// The greatest trace number: six digits.
pub const GREATEST_TRACE: u32 = 999_999;

/// The greatest receipt number: four digits.
pub const GREATEST_RECEIPT: u16 = 9_999;

/// The most lines of a block that a terminal sends to be printed, and so of a print request. ZVT has no limit of its own: this
/// one is more than a receipt has, and bounds what one reply is put together of.
pub const MOST_PRINTED_LINES: usize = 400;

/// The most outputs of one display request. Each gets a result of its own, and this many fit the buffer in which a reply is
/// written.
pub const MOST_OUTPUTS: usize = 16;

/// The most lines that a terminal shows of one output: ZVT has a field for each, `F1` to `F8`.
pub const MOST_SHOWN_LINES: usize = 8;

/// The most characters of a line that a terminal shows. Eight lines of this length fit the buffer in which a command is
/// written.
pub const LONGEST_SHOWN_LINE: usize = 40;

/// The most pairs of till and terminal that may be logged out at once. A till names itself, so one that sends ever new names
/// could otherwise have any number remembered.
pub const MOST_LOGGED_OUT: usize = 1_024;

/// The most bytes of a configuration. It is read whole before a byte of it is understood, and 32 terminals take a small part of
/// this: a longer file is another file, given by mistake.
pub const LONGEST_CONFIGURATION: usize = 65_536;

/// The most bytes of a script. An input may have no end, and a script is read whole before its first line is played.
pub const LONGEST_SCRIPT: usize = 4_194_304;

/// The most payments of a drill. Each takes at least two slots of a journal, so that all of them fit one, and a drill ends.
pub const MOST_DRILL_PAYMENTS: u32 = 10_000;
