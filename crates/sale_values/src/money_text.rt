//! The text of money, as it is written.
ghost use Rattle.std.specs.Prelude.{◌≡◌};
ghost use Rattle.sale_values.specs.Money.{money_text};

use arrayvec::ArrayVec;
use itoa::Buffer;

/// Minor units of a currency with two decimals: whole units, a point and two digits, as `10.99` and `0.07`.
#[tactic(auto, unfolding(crate::specs::Money::money_text))]
pub fn money(units: u64) -> ArrayVec<u8, 24>
    ensures { result.items ≡ money_text units }
{
    // Up to 18 digits of whole units, a point and two digits: 21 bytes at most.
    let mut text = ArrayVec::new();
    let mut whole = Buffer::new();
    text.try_extend_from_slice(whole.format(units / 100).as_bytes())
        .unwrap();
    let cents = (units % 100) as u8;
    text.try_extend_from_slice(&[b'.', b'0' + cents / 10, b'0' + cents % 10])
        .unwrap();
    text
}
