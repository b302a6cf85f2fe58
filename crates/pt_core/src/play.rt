//! What a played terminal is to do at its payments.
ghost use Rattle.std.specs.Prelude.{◌≡◌};

use std::marker::Model;

/// What the terminal does at one payment.
#[derive(Clone, Copy, Debug, PartialEq, Eq)]
pub enum Play {
    /// Approves it.
    Approve,
    /// Declines it with this result code.
    Decline(u8),
    /// Approves it in its book, and cuts the connection before it says so.
    CutAfterBook,
    /// Cuts the connection, and books nothing.
    DropAtOnce,
}

/// The plays of a terminal, one for each authorisation in their order. A contract sees a list.
#[derive(Clone, Debug, Drop)]
pub struct Plays {
    inner: Vec<Play>,
}

impl Model for Plays {
    ghost use Rattle.std.specs.Prelude.{List};
    ghost use Rattle.pt_core.specs.declared.play.Play.{Play};

    ghost Value = { List Play };

    ghost view = { λ plays. plays.inner.items };
}

impl Plays {
    /// The plays of this vector.
    pub fn new(inner: Vec<Play>) -> Plays
        ensures { result ≡ inner.items }
    {
        Plays { inner }
    }

    /// The vector.
    pub fn inner(&self) -> &Vec<Play>
        ensures { result.now.items ≡ self.now }
    {
        &self.inner
    }
}
