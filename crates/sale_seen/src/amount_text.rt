//! Money, as it is written.
ghost use Rattle.std.specs.Prelude.{◌≡◌, ◌↔◌, ℕ, ◌^◌, ◌<◌, IsTrue};
ghost use Rattle.sale_values.specs.Money.{money_text};
ghost use Rattle.sale_seen.specs.Grammar.{FindsMember};

use crate::digits::spelled;
use sale_values::money;

/// The minor units that are written with this text: whole units, a point and two digits. `None` where 64 bits don't
/// hold them, or where they are written in another way.
pub(crate) fn units_of(text: &[u8]) -> Option<u64>
    ensures { FindsMember (λ units. (text.now ≡ money_text units) × (units < 2 ^ 64)) result }
{
    // The digits are read whatever bytes are among them, and then the number is written again: one comparison refuses
    // leading zeros, signs, exponents and other fractions.
    match spelled(text) {
        None => None,
        Some(units) => {
            if is_written(units, text) {
                Some(units)
            } else {
                None
            }
        }
    }
}

/// Whether this is how so many minor units are written.
fn is_written(units: u64, text: &[u8]) -> bool
    ensures { IsTrue result ↔ (text.now ≡ money_text units) }
{
    money(units).as_slice() == text
}
