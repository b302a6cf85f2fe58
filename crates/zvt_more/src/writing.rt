//! The writing of a refund, a reservation and a reservation's completion.

ghost use Rattle.std.specs.Prelude.{◌≡◌, ◌+◌, ◌^◌, ◌<◌, ◌≤◌, [], ◌∷◌, ◌++◌, length};
ghost use Rattle.arrayvec.specs.ArrayVec.{array_vec_len};
ghost use Rattle.gw_base.specs.Bcd.{bcd_of};
ghost use Rattle.zvt_more.specs.Grammar.{HasMoreDigits};
ghost use Rattle.zvt_more.specs.Canonical.{canonical_amount_and_currency, more_instruction, more_data, canonical_more_command};

use crate::more::More;
use arrayvec::ArrayVec;
use gw_base::bcd_write;
use zvt_apdu::write_apdu;

/// Writes the one APDU that spells a refund, a reservation or a reservation's completion: 13 or 16 bytes.
pub fn write_more(more: &More, out: &mut ArrayVec<u8, 512>)
    requires empty { out.old.items ≡ [] }
    requires digits { HasMoreDigits more.now }
    ensures { out.new.items ≡ canonical_more_command more.now }
{
    // The length of the data comes before them, so they are written apart first.
    let mut apdu_data = ArrayVec::new();
    write_data(more, &mut apdu_data);
    write_apdu(0x06, instr(more), apdu_data.as_slice(), out);
}

fn instr(more: &More) -> u8
    ensures { result ≡ more_instruction more.now }
{
    match more {
        More::Refund { .. } => 0x31,
        More::Reserve { .. } => 0x22,
        More::Complete { .. } => 0x24,
    }
}

fn write_data(more: &More, apdu_data: &mut ArrayVec<u8, 512>)
    requires empty { apdu_data.old.items ≡ [] }
    requires digits { HasMoreDigits more.now }
    ensures apdu_data { apdu_data.new.items ≡ more_data more.now }
    ensures bound { array_vec_len apdu_data.new ≤ 13 }
{
    match more {
        More::Refund {
            password,
            amount,
            currency,
        } => {
            write_bytes(password, apdu_data);
            write_amount_and_currency(*amount, *currency, apdu_data);
        }
        More::Reserve { amount, currency } => {
            write_amount_and_currency(*amount, *currency, apdu_data);
        }
        More::Complete {
            receipt,
            amount,
            currency,
        } => {
            write_field(0x87, 2, u64::from(*receipt), apdu_data);
            write_amount_and_currency(*amount, *currency, apdu_data);
        }
    }
}

/// Appends the fields of an amount and of a currency.
fn write_amount_and_currency(amount: u64, currency: u16, out: &mut ArrayVec<u8, 512>)
    requires amount { amount < 100 ^ 6 }
    requires currency { currency < 100 ^ 2 }
    requires fits { array_vec_len out.old + 10 ≤ 512 }
    ensures fields { out.new.items ≡ out.old.items ++ canonical_amount_and_currency amount currency }
    ensures len { array_vec_len out.new ≡ array_vec_len out.old + 10 }
{
    write_field(0x04, 6, amount, out);
    write_field(0x49, 2, u64::from(currency), out);
}

/// Appends the number of a field, and its value's decimal digits in so many bytes.
fn write_field(number: u8, count: usize, value: u64, out: &mut ArrayVec<u8, 512>)
    requires count { count ≤ 6 }
    requires digits { value < 100 ^ count }
    requires fits { array_vec_len out.old + 1 + count ≤ 512 }
    ensures field { out.new.items ≡ out.old.items ++ number ∷ bcd_of count value }
    ensures len { array_vec_len out.new ≡ array_vec_len out.old + 1 + count }
{
    let mut digits = [0; 6];
    let digits = &mut digits[..count];
    bcd_write(value, digits);
    out.push(number);
    write_bytes(digits, out);
}

fn write_bytes(bytes: &[u8], out: &mut ArrayVec<u8, 512>)
    requires { array_vec_len out.old + length bytes.now ≤ 512 }
    ensures { out.new.items ≡ out.old.items ++ bytes.now }
{
    out.try_extend_from_slice(bytes).unwrap();
}
