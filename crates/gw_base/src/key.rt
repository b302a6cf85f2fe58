//! The key that names a request of a till.
ghost use Rattle.std.specs.Prelude.{◌≡◌, ◌↔◌};
ghost use Rattle.gw_base.specs.declared.key.Key.{Key};
ghost use Rattle.gw_base.specs.Key.{key_cmp};

use crate::Ident;
use std::cmp::Ordering;

/// What names a request of a till: nexo's SaleID, POIID and ServiceID.
///
/// The derived order is by `sale`, then `poi`, then `service`, each by its bytes.
#[derive(Clone, Copy, PartialEq, Eq, PartialOrd, Ord, Debug)]
pub struct Key {
    pub sale: Ident<40>,
    pub poi: Ident<40>,
    pub service: Ident<10>,
}

/// The order of keys ties two keys exactly where they are equal.
pub fn law_keys()
    ensures { (a b : Key) → (key_cmp a b ≡ Ordering.Equal) ↔ (a ≡ b) }
{}
