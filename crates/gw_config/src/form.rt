//! The forms of the values of a configuration: each function gives what a value of its form says, and `None`
//! for a value of another form.
ghost use Rattle.std.specs.Prelude.{◌≡◌, is_some, length, option_map, ◌+◌, ◌-◌, ◌*◌, ◌&&◌, if◌then◌else◌, Some, None};
ghost use Rattle.std.specs.Char.{is_ascii_digit};
ghost use Rattle.std.specs.Option.{option_copied};
ghost use Rattle.std.specs.List.{list_all};
ghost use Rattle.toml.specs.Data.{as_table};
ghost use Rattle.toml.specs.View.{view};
ghost use Rattle.gw_config.specs.inner.Decode.{tables_of};
ghost use Rattle.gw_config.specs.Form.{is_from_to, short_text, identifier, integer_from, currency_code, six_digits, some_tables};

use gw_base::{Currency, Ident};
use gw_bytes::MOST_TERMINALS;
use toml::Value;

/// A text of 1 to 255 bytes.
pub(crate) fn short_text(value: &Value) -> Option<&str>
    ensures { option_copied result ≡ short_text (view value.now) }
{
    match value.as_str() {
        Some(text) if (1..=255).contains(&text.len()) => Some(text),
        _ => None,
    }
}

/// A text of 1 to 40 printable ASCII bytes.
pub(crate) fn identifier(value: &Value) -> Option<Ident<40>>
    ensures { result ≡ identifier (view value.now) }
{
    Ident::of(value.as_str()?.as_bytes())
}

/// An integer from `low` to `high`.
pub(crate) fn integer_from(value: &Value, low: u32, high: u32) -> Option<u32>
    ensures { result ≡ integer_from low high (view value.now) }
{
    // TOML's integers have a sign: a negative one is out of every range here.
    let number = u32::try_from(value.as_integer()?).ok()?;
    if (low..=high).contains(&number) {
        Some(number)
    } else {
        None
    }
}

/// The three letters of a currency.
pub(crate) fn currency(value: &Value) -> Option<Currency>
    ensures { result ≡ currency_code (view value.now) }
{
    let [first, second, third] = value.as_str()?.as_bytes() else {
        return None;
    };
    Currency::from_code(&[*first, *second, *third])
}

/// Six digits: a password's three bytes, with two digits in each.
pub(crate) fn six_digits(value: &Value) -> Option<[u8; 3]>
    ensures { result ≡ six_digits (view value.now) }
{
    let [a, b, c, d, e, f] = value.as_str()?.as_bytes() else {
        return None;
    };
    Some([pair(*a, *b)?, pair(*c, *d)?, pair(*e, *f)?])
}

/// Two digits of ASCII in one byte.
fn pair(tens: u8, ones: u8) -> Option<u8>
    ensures { result ≡ (if is_ascii_digit tens && is_ascii_digit ones
        then Some (16 * (tens - 0x30) + (ones - 0x30)) else None) }
{
    if tens.is_ascii_digit() && ones.is_ascii_digit() {
        Some(16 * (tens - b'0') + (ones - b'0'))
    } else {
        None
    }
}

/// The values of an array of 1 to 32 tables.
pub(crate) fn some_tables(value: &Value) -> Option<&[Value]>
    ensures { option_map (λ values. tables_of values.now) result ≡ some_tables (view value.now) }
{
    let values = value.as_array()?.as_slice();
    if are_tables(values) {
        Some(values)
    } else {
        None
    }
}

/// Whether these are 1 to 32 values, each a table.
fn are_tables(values: &[Value]) -> bool
    ensures { result ≡ (is_from_to 1 32 (length values.now)
        && list_all (λ value. is_some (as_table (view value))) values.now) }
{
    (1..=MOST_TERMINALS).contains(&values.len()) && are_all_tables(values)
}

/// Whether each of these values is a table.
fn are_all_tables(values: &[Value]) -> bool
    ensures { result ≡ list_all (λ value. is_some (as_table (view value))) values.now }
{
    values.iter().all(|value| value.is_table())
}
