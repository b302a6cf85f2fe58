//! The text that identifies a transaction, as it is written.
ghost use Rattle.std.specs.Prelude.{◌≡◌, ◌↔◌, ◌^◌, ◌<◌, All, IsTrue, decimal};
ghost use Rattle.std.specs.Char.{IsAsciiDigit};
ghost use Rattle.std.specs.Option.{option_copied};
ghost use Rattle.sale_seen.specs.Grammar.{FindsMember};
ghost use Rattle.sale_seen.specs.Transaction.{IsTransactionIdentifier};
ghost use Rattle.sale_seen.specs.inner.Spelled.{FollowsDigits, IsSlotText};

use crate::digits::spelled;
use itoa::Buffer;

/// Whether the text is that of a transaction: six digits of a trace number, four of a receipt number, and a slot, with
/// dashes between.
pub(crate) fn is_transaction(text: &[u8]) -> bool
    ensures { IsTrue result ↔ IsTransactionIdentifier text.now }
{
    match after_digits(text, 6) {
        None => false,
        Some(rest) => match after_digits(rest, 4) {
            None => false,
            Some(slot) => is_slot(slot),
        },
    }
}

/// What follows so many digits and a dash; `None` where the text doesn't begin with them.
fn after_digits(text: &[u8], count: usize) -> Option<&[u8]>
    ensures { FindsMember (FollowsDigits count text.now) (option_copied result) }
{
    if text.len() <= count {
        return None;
    }
    if text[count] != b'-' {
        return None;
    }
    if !are_digits(&text[..count]) {
        return None;
    }
    Some(&text[count + 1..])
}

fn are_digits(text: &[u8]) -> bool
    ensures { IsTrue result ↔ All IsAsciiDigit text.now }
{
    text.iter().all(|byte| byte.is_ascii_digit())
}

/// Whether the text is a slot: a number of 32 bits, without leading zeros.
fn is_slot(text: &[u8]) -> bool
    ensures { IsTrue result ↔ IsSlotText text.now }
{
    // As with money: what the digits spell is written again, and one comparison refuses every other text.
    match spelled(text) {
        None => false,
        Some(value) => match u32::try_from(value) {
            Err(_) => false,
            Ok(slot) => is_decimal(slot, text),
        },
    }
}

/// Whether this is how the slot is written.
fn is_decimal(slot: u32, text: &[u8]) -> bool
    ensures { IsTrue result ↔ ((text.now ≡ decimal slot) × (slot < 2 ^ 32)) }
{
    Buffer::new().format(slot).as_bytes() == text
}
