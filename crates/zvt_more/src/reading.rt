//! Reading a refund, a reservation and a reservation's completion.

ghost use Rattle.std.specs.Prelude.{◌≡◌, ◌↔◌, ◌^◌, ◌<◌, ◌≤◌, Some, IsNone, IfSome};
ghost use Rattle.zvt_apdu.specs.Grammar.{value_of};
ghost use Rattle.zvt_msg.specs.CommandDecode.{decode_password, decode_bcd_number};
ghost use Rattle.zvt_more.specs.declared.more.More.{More};
ghost use Rattle.zvt_more.specs.Grammar.{SpellsMore};
ghost use Rattle.zvt_more.specs.Decode.{decode_amount_and_currency, decode_refund, decode_reservation, decode_reservation_completion, decode_more};

use crate::more::More;
use gw_base::bcd_read;
use zvt_apdu::Apdu;

/// The refund, the reservation or the reservation's completion that an APDU to a terminal spells.
pub fn read_more(apdu: &Apdu<'_>) -> Option<More>
    ensures some { (more : More) → (result ≡ Some more) ↔ SpellsMore (value_of apdu.now) more }
    ensures none { IsNone result ↔ ((more : More) → ¬ SpellsMore (value_of apdu.now) more) }

    // The result, by the function that computes it.
    ensures computes { result ≡ decode_more (value_of apdu.now) }
{
    recognise(apdu)
}

/// What [`read_more`] returns, by the function that computes it. It is apart from it for the prover alone: the relation
/// follows from this.
#[tactic(auto, unfolding(crate::specs::Decode::decode_more))]
fn recognise(apdu: &Apdu<'_>) -> Option<More>
    ensures { result ≡ decode_more (value_of apdu.now) }
{
    if apdu.class != 0x06 {
        return None;
    }
    match apdu.instr {
        0x31 => read_refund(apdu.body),
        0x22 => read_reservation(apdu.body),
        0x24 => read_completion(apdu.body),
        _ => None,
    }
}

fn read_refund(apdu_data: &[u8]) -> Option<More>
    ensures { result ≡ decode_refund apdu_data.now }
{
    if apdu_data.len() < 3 {
        return None;
    }
    let (password, rest) = apdu_data.split_at(3);
    let password = read_password(password)?;
    let (amount, currency) = read_amount_and_currency(rest)?;
    Some(More::Refund {
        password,
        amount,
        currency,
    })
}

fn read_reservation(apdu_data: &[u8]) -> Option<More>
    ensures { result ≡ decode_reservation apdu_data.now }
{
    let (amount, currency) = read_amount_and_currency(apdu_data)?;
    Some(More::Reserve { amount, currency })
}

fn read_completion(apdu_data: &[u8]) -> Option<More>
    ensures { result ≡ decode_reservation_completion apdu_data.now }
{
    let [0x87, rest @ ..] = apdu_data else {
        return None;
    };
    if rest.len() < 2 {
        return None;
    }
    let (receipt, rest) = rest.split_at(2);
    let receipt = read_number(2, receipt)? as u16;
    let (amount, currency) = read_amount_and_currency(rest)?;
    Some(More::Complete {
        receipt,
        amount,
        currency,
    })
}

/// The amount and the currency that fill the bytes: `04` and `49`, each with its digits.
fn read_amount_and_currency(bytes: &[u8]) -> Option<(u64, u16)>
    ensures { result ≡ decode_amount_and_currency bytes.now }
{
    let [0x04, rest @ ..] = bytes else {
        return None;
    };
    if rest.len() < 6 {
        return None;
    }
    let (amount, rest) = rest.split_at(6);
    let [0x49, currency @ ..] = rest else {
        return None;
    };
    Some((read_number(6, amount)?, read_number(2, currency)? as u16))
}

/// Six digits in three bytes.
fn read_password(bytes: &[u8]) -> Option<[u8; 3]>
    ensures { result ≡ decode_password bytes.now }
{
    let [first, second, third] = bytes else {
        return None;
    };
    read_number(3, bytes)?;
    Some([*first, *second, *third])
}

/// The number whose digits fill so many bytes.
fn read_number(count: usize, bytes: &[u8]) -> Option<u64>
    requires { count ≤ 6 }
    ensures number { result ≡ decode_bcd_number count bytes.now }
    ensures bound { IfSome result (λ number. number < 100 ^ count) }
{
    if bytes.len() != count {
        return None;
    }
    bcd_read(bytes).ok()
}
