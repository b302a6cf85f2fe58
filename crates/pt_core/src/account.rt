//! What a played terminal keeps beside its connection, while it serves requests.
ghost use Rattle.std.specs.Prelude.{◌≤◌, vec_len, IsTrue};
ghost use Rattle.pt_core.specs.Book.{all_fit, last_trace};

use crate::book::BookEntry;
use crate::play::Plays;

/// The plays that are left, and the entries.
#[derive(Debug, Drop)]
pub(crate) struct Account<'a> {
    /// The result code by which the terminal says that it has no transaction.
    pub(crate) none: u8,
    pub(crate) plays: &'a Plays,
    /// How many plays are used up.
    pub(crate) used: usize,
    pub(crate) entries: Vec<BookEntry>,
    ghost fit: { IsTrue (all_fit entries.items) },
    ghost few: { vec_len entries ≤ last_trace },
}
