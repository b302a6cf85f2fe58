//! What a played terminal does at one request, and the bytes that it sends for it.
ghost use Rattle.std.specs.Prelude.{◌≡◌, ◌≤◌, ◌++◌, [], IsTrue, option_to_list};
ghost use Rattle.arrayvec.specs.ArrayVec.{array_vec_len};
ghost use Rattle.pt_core.specs.Book.{fits_status};
ghost use Rattle.pt_core.specs.Table.{bytes_of, cuts, entries_of, status_of_entry, reported_fits};

use crate::book::BookEntry;
use arrayvec::ArrayVec;
use zvt_bmp::Fields;
use zvt_msg::{PtMessage, write_pt};

/// The error code by which a command is refused that the terminal doesn't know.
const UNKNOWN: u8 = 0x83;

/// What the terminal does at one request.
#[derive(Clone, Copy, Debug, PartialEq, Eq)]
pub(crate) enum Reaction {
    /// Nothing.
    Silent,
    /// Acknowledges it.
    Acknowledged,
    /// Refuses it as unknown.
    Refused,
    /// Acknowledges it, and completes.
    Completed,
    /// Books the entry, and reports it.
    Approved(BookEntry),
    /// Reports the entry, which is booked already.
    Reported(BookEntry),
    /// Acknowledges it, and aborts with this result code.
    Aborted(u8),
    /// Books the entry, acknowledges, and cuts the connection.
    Booked(BookEntry),
    /// Cuts the connection.
    Dropped,
}

impl Reaction {
    /// The entry that is booked.
    pub(crate) fn entry(&self) -> Option<BookEntry>
        ensures { option_to_list result ≡ entries_of self.now }
    {
        match self {
            Reaction::Approved(entry) | Reaction::Booked(entry) => Some(*entry),
            Reaction::Silent
            | Reaction::Acknowledged
            | Reaction::Refused
            | Reaction::Completed
            | Reaction::Reported(_)
            | Reaction::Aborted(_)
            | Reaction::Dropped => None,
        }
    }

    /// Whether the connection is cut after the messages.
    pub(crate) fn cuts(&self) -> bool
        ensures { result ≡ cuts self.now }
    {
        matches!(self, Reaction::Booked(_) | Reaction::Dropped)
    }

    /// Writes the messages.
    pub(crate) fn write(&self, out: &mut ArrayVec<u8, 512>)
        requires fits { IsTrue (reported_fits self.now) }
        requires empty { out.old.items ≡ [] }
        ensures bytes { out.new.items ≡ bytes_of self.now }
        ensures bound { array_vec_len out.new ≤ 32 }
    {
        match self {
            Reaction::Silent | Reaction::Dropped => {}
            Reaction::Refused => write_pt(&PtMessage::Nack(UNKNOWN), out),
            Reaction::Acknowledged | Reaction::Booked(_) => write_pt(&PtMessage::Ack, out),
            Reaction::Completed => {
                write_pt(&PtMessage::Ack, out);
                write_pt(&PtMessage::Completion, out);
            }
            Reaction::Approved(entry) | Reaction::Reported(entry) => {
                write_pt(&PtMessage::Ack, out);
                write_pt(&PtMessage::Status(status_of_entry(entry)), out);
                write_pt(&PtMessage::Completion, out);
            }
            Reaction::Aborted(result_code) => {
                write_pt(&PtMessage::Ack, out);
                write_pt(&PtMessage::Abort(Some(*result_code)), out);
            }
        }
    }
}

/// The status that reports an entry.
fn status_of_entry(entry: &BookEntry) -> Fields
    ensures { result ≡ status_of_entry entry.now }
{
    Fields {
        result: Some(0x00),
        amount: Some(entry.amount),
        trace: Some(entry.number),
        receipt: Some(entry.receipt),
        currency: None,
        tail: 0,
    }
}
