//! Where the Outcome of an Intent is, or none, in four bytes.
ghost use Rattle.std.specs.Prelude.{◌≡◌, ◌<◌, None, Some};

use std::marker::Model;

/// The slot of an Outcome, or none. Every slot has one of these, and an `Option` of a slot takes twice the memory.
///
/// A contract sees the `Option`.
#[derive(Clone, Copy, Debug)]
pub struct Ended {
    /// The slot after it, or 0 where there is none.
    next: u32,
}

impl Model for Ended {
    ghost use Rattle.std.specs.Prelude.{ℕ, Option};
    ghost use Rattle.gw_ledger.specs.Ended.{slot_after, slot_after-before, slot_before};

    ghost Value = { Option ℕ };

    ghost view = { λ e. slot_before e.next };

    ghost inverse = { λ slot. record { next = slot_after slot } };

    ghost inverse_ok = { λ e h k. record { next = slot_after-before e.next k } };
}

impl Ended {
    /// No slot.
    pub const NONE: Ended = Ended { next: 0 };

    /// This slot.
    pub fn at(slot: u32) -> Ended
        requires { slot < 1000000 }
        ensures { result ≡ Some slot }
    {
        Ended { next: slot + 1 }
    }

    /// The slot, where there is one.
    pub fn get(self) -> Option<u32>
        ensures { result ≡ self }
    {
        self.next.checked_sub(1)
    }
}
