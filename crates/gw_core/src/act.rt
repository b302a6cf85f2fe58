//! What the core wants done.
ghost use Rattle.std.specs.Prelude.{◌≡◌, None, Some};
ghost use Rattle.gw_core.specs.IsRow.{alone};

use jrn_record::Record;
use sale_msg::Header;
use sale_reply::SaleReply;
use zvt_msg::Command;

/// What the core wants done: a record is kept, where there is one, and then a call is made, where there is one.
#[derive(Drop)]
pub struct Acts<'a> {
    pub keep: Option<Record>,
    pub act: Option<Act<'a>>,
}

impl Acts<'static> {
    /// Nothing is wanted.
    pub(crate) fn none() -> Acts<'static>
        ensures { result ≡ alone None }
    {
        Acts {
            keep: None,
            act: None,
        }
    }

    /// Nothing is kept, and the terminal's connection is cut.
    pub(crate) fn cut(pt: u16) -> Acts<'static>
        ensures { result ≡ alone (Some (Act.CutPt pt)) }
    {
        Acts {
            keep: None,
            act: Some(Act::CutPt(pt)),
        }
    }
}

/// A call that the core wants made, of a terminal or a till by its number.
#[derive(Drop)]
pub enum Act<'a> {
    /// A terminal is sent a command.
    SendPt(u16, Command),
    /// A terminal's message is acknowledged.
    Ack(u16),
    /// A terminal's message is refused.
    Refuse(u16),
    /// A terminal's connection is cut.
    CutPt(u16),
    /// A terminal is linked.
    Link(u16),
    /// A till is sent a reply, or a device request that shows something.
    SendTill(u64, SaleReply<'static>),
    /// A till is sent the device request with this header that prints what a terminal's message has.
    Print(u64, Header, Printed<'a>),
}

/// What a message of a terminal prints, in the bytes of the message.
#[derive(Clone, Copy)]
pub enum Printed<'a> {
    /// The text of a line.
    Line(&'a [u8]),
    /// The objects of a block.
    Block(&'a [u8]),
}
