//! A waiting request, and what names it among those that wait.
ghost use Rattle.std.specs.Prelude.{◌≡◌, ◌↔◌, IsTrue, int_lt};
ghost use Rattle.std.specs.Ordering.{is_eq};
ghost use Rattle.gw_base.specs.Key.{key_cmp};

use gw_base::{Key, law_keys};
use sale_values::{Header, SaleRequest};
use std::marker::Model;

/// A request of a till that waits for its terminal.
#[derive(Clone, Drop)]
pub struct Item {
    /// The key of the request.
    pub key: Key,
    /// The number of the till, which no later till has.
    pub till: u64,
    /// The seat of the till, below 64, which a later till may have.
    pub seat: u16,
    /// The index of the terminal in the setup, below 32.
    pub terminal: u16,
    /// The moment from which on the till gets its reply without the terminal.
    pub deadline: i64,
    /// Its header, which its replies are written for.
    pub header: Header,
    /// What is asked.
    pub request: SaleRequest,
}

/// Names a waiting request from its `insert` to its `take`; a later one may have the same id.
///
/// A contract sees its number.
#[derive(Clone, Copy, PartialEq, Eq, Debug)]
pub struct LineId {
    index: usize,
}

impl Model for LineId {
    ghost use Rattle.std.specs.Prelude.{ℕ};

    ghost Value = { ℕ };

    ghost view = { λ id. id.index };

    ghost inverse = { λ index. record { index = index } };
}

impl LineId {
    ghost use Rattle.std.specs.Prelude.{◌≡◌};

    pub(crate) fn of(index: usize) -> LineId
        ensures { result ≡ index }
    {
        LineId { index }
    }

    pub(crate) fn index(self) -> usize
        ensures { result ≡ self }
    {
        self.index
    }
}

/// The deadline of a request is later than this moment.
pub(crate) fn is_later(item: &Item, moment: i64) -> bool
    ensures { result ≡ int_lt moment item.now.deadline }
{
    moment < item.deadline
}

/// The deadline of one request is earlier than that of another.
pub(crate) fn is_due_before(one: &Item, other: &Item) -> bool
    ensures { result ≡ int_lt one.now.deadline other.now.deadline }
{
    one.deadline < other.deadline
}

/// A request has this key.
pub(crate) fn has_key(item: &Item, key: &Key) -> bool
    ensures test { result ≡ is_eq (key_cmp item.now.key key.now) }
    ensures same { IsTrue result ↔ (item.now.key ≡ key.now) }
{
    law_keys();
    item.key.cmp(key).is_eq()
}
