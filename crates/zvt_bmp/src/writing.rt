//! The writing of a status.

ghost use Rattle.std.specs.Prelude.{◌≡◌, ◌+◌, ◌^◌, ◌<◌, ◌≤◌, ◌++◌, length, IfSome};
ghost use Rattle.arrayvec.specs.ArrayVec.{array_vec_len};
ghost use Rattle.zvt_bmp.specs.Canonical.{HasFieldDigits, canonical_status, canonical_result_field, canonical_digits_field, canonical_currency_field};

use crate::fields::Fields;
use arrayvec::ArrayVec;
use gw_base::bcd_write;

/// Appends the fields that are there: `27`, `04`, `0B`, `87` and `49` in this order, and no tail.
pub fn write_fields(fields: &Fields, out: &mut ArrayVec<u8, 512>)
    requires digits { HasFieldDigits fields.now }
    requires fits { array_vec_len out.old + length (canonical_status fields.now) ≤ 512 }
    ensures { out.new.items ≡ out.old.items ++ canonical_status fields.now }
{
    write_result(fields.result, out);
    write_digits(0x04, 6, fields.amount, out);
    write_digits(0x0B, 3, fields.trace.map(u64::from), out);
    write_digits(0x87, 2, fields.receipt.map(u64::from), out);
    write_currency(fields.currency, out);
}

/// Appends field `27`, where there is a result code.
fn write_result(result_code: Option<u8>, out: &mut ArrayVec<u8, 512>)
    requires { array_vec_len out.old + length (canonical_result_field result_code) ≤ 512 }
    ensures { out.new.items ≡ out.old.items ++ canonical_result_field result_code }
{
    let Some(result) = result_code else {
        return;
    };
    out.push(0x27);
    out.push(result);
}

/// Appends a field with its value's digits in so many bytes, where there is a value.
fn write_digits(number: u8, size: usize, value: Option<u64>, out: &mut ArrayVec<u8, 512>)
    requires size { size ≤ 6 }
    requires digits { IfSome value (λ value. value < 100 ^ size) }
    requires fits { array_vec_len out.old + length (canonical_digits_field number size value) ≤ 512 }
    ensures { out.new.items ≡ out.old.items ++ canonical_digits_field number size value }
{
    let Some(value) = value else {
        return;
    };
    let mut digits = [0; 6];
    let digits = &mut digits[..size];
    bcd_write(value, digits);
    out.push(number);
    out.try_extend_from_slice(digits).unwrap();
}

/// Appends field `49`, where there is a currency.
fn write_currency(currency: Option<[u8; 2]>, out: &mut ArrayVec<u8, 512>)
    requires { array_vec_len out.old + length (canonical_currency_field currency) ≤ 512 }
    ensures { out.new.items ≡ out.old.items ++ canonical_currency_field currency }
{
    let Some(currency) = currency else {
        return;
    };
    out.push(0x49);
    out.try_extend_from_slice(&currency).unwrap();
}
