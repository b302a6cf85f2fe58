//! A message of a terminal.

use zvt_bmp::Fields;

/// A message of a terminal. Texts and objects borrow from the APDU that was read.
#[derive(Clone, Copy, Debug, PartialEq, Eq)]
pub enum PtMessage<'a> {
    /// `80 00`, positive acknowledgement.
    Ack,
    /// `84 xx`, negative acknowledgement, with its error code.
    Nack(u8),
    /// `04 FF`, intermediate status, with its byte; 0 where there is none.
    Intermediate(u8),
    /// `06 D1`, a line to print, in the terminal's character set.
    Line(&'a [u8]),
    /// `06 D3`, a block to print: the TLV objects of its container.
    Block(&'a [u8]),
    /// `04 0F`, status information.
    Status(Fields),
    /// `06 0F`, completion.
    Completion,
    /// `06 1E`, abort, with its result code, if there is one.
    Abort(Option<u8>),
    /// Every other APDU.
    Other,
}
