//! The book of a played terminal.
ghost use Rattle.std.specs.Prelude.{◌≡◌, ◌≤◌, ◌∷◌, [], ◌++◌, vec_len, IsTrue};
ghost use Rattle.pt_core.specs.Book.{all_fit, is_payment_with, last_trace};

use std::alloc::Global;
use std::marker::Model;
use std::mem;

/// A transaction in the book of a terminal.
#[derive(Clone, Copy, Debug, PartialEq, Eq)]
pub struct BookEntry {
    /// The trace number, from 1.
    pub number: u32,
    /// The receipt number.
    pub receipt: u16,
    /// The amount in minor units.
    pub amount: u64,
    /// Whether it is a reversal.
    pub reversal: bool,
    /// Whether it is approved. A played terminal books nothing else.
    pub approved: bool,
}

impl BookEntry {
    /// Whether it is an approved payment with this receipt number.
    pub(crate) fn is_payment_with(&self, receipt: u16) -> bool
        ensures { result ≡ is_payment_with receipt self.now }
    {
        self.receipt == receipt && self.approved && !self.reversal
    }
}

/// The entries of a terminal, the oldest first. A contract sees a list.
#[derive(Debug, Drop)]
pub struct Book {
    entries: Vec<BookEntry>,
}

impl Model for Book {
    ghost use Rattle.std.specs.Prelude.{List, IsTrue, ◌≤◌};
    ghost use Rattle.std.specs.Vec.{vec_len};
    ghost use Rattle.pt_core.specs.declared.book.BookEntry.{BookEntry};
    ghost use Rattle.pt_core.specs.Book.{all_fit, last_trace};

    ghost Value = { List BookEntry };

    ghost view = { λ book. book.entries.items };

    ghost invariant = { λ book. (IsTrue (all_fit book.entries.items)) × (vec_len book.entries ≤ last_trace) };
}

impl Book {
    /// The book of these entries.
    pub(crate) fn of(entries: Vec<BookEntry>) -> Book
        requires fit { IsTrue (all_fit entries.items) }
        requires few { vec_len entries ≤ last_trace }
        ensures { result ≡ entries.items }
    {
        Book { entries }
    }

    /// The entries, which are taken out.
    pub(crate) fn take(&mut self, alloc: Global) -> Vec<BookEntry>
        ensures entries { result.items ≡ self.old }
        ensures fit { IsTrue (all_fit result.items) }
        ensures few { vec_len result ≤ last_trace }
    {
        mem::replace(&mut self.entries, Vec::new(alloc))
    }

    /// The entries as a slice.
    pub fn as_slice(&self) -> &[BookEntry]
        ensures { result.now ≡ self.now }
    {
        &self.entries
    }
}
