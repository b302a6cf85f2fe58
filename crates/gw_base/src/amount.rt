//! Amounts in the text of a JSON number.
ghost use Rattle.std.specs.Prelude.{◌≡◌, ◌↔◌, ℕ, List, ◌++◌, ◌==◌, ◌<◌, ◌≤◌, [], ◌∷◌, All, length, take, drop, IsTrue, IfSome, Some, MatchOption};
ghost use Rattle.std.specs.Char.{is_ascii_digit, IsAsciiDigit};
ghost use Rattle.std.specs.List.{list_all, prefix_len};
ghost use Rattle.std.specs.Option.{option_copied};
ghost use Rattle.gw_base.specs.Amount.{decimal_value, fraction_of, is_whole, minor_units, minor_units_with, SpellsAmount};

use gw_bytes::GREATEST_AMOUNT;

/// The minor units that the text of a JSON number spells, in a currency with two decimals.
///
/// It has no sign and no exponent; digits past the second one after the point are zeros, and a missing one
/// counts as zero. An amount is 1 to 999,999,999,999 minor units; `None` for any other text.
pub fn minor_of(numeral: &[u8]) -> Option<u64>
    ensures value { result ≡ minor_units numeral.now }
    ensures amount { MatchOption result ((units : ℕ) → ¬ SpellsAmount numeral.now units) (SpellsAmount numeral.now) }
{
    let (whole, rest) = numeral.split_at(whole_len(numeral));
    match fraction_digits(rest) {
        Some(fraction) => units_of_parts(whole, fraction),
        None => None,
    }
}

/// The minor units of the digits before and after the point, if these are an amount.
fn units_of_parts(whole: &[u8], fraction: &[u8]) -> Option<u64>
    requires { All IsAsciiDigit fraction.now }
    ensures { result ≡ minor_units_with whole.now (Some fraction.now) }
{
    if !is_whole_number(whole) {
        return None;
    }
    // More digits spell more than the greatest amount; ten of them, in minor units, still fit 64 bits.
    if whole.len() > 10 {
        return None;
    }
    if !are_zeros_past_second(fraction) {
        return None;
    }
    let units = 100 * decimal(whole) + hundredths(fraction);
    if (1..=GREATEST_AMOUNT).contains(&units) {
        Some(units)
    } else {
        None
    }
}

/// How many digits the text begins with.
fn whole_len(numeral: &[u8]) -> usize
    ensures { result ≡ prefix_len is_ascii_digit numeral.now }
{
    numeral
        .iter()
        .take_while(|byte| byte.is_ascii_digit())
        .count()
}

/// Whether it is an `int` by RFC 8259.
fn is_whole_number(digits: &[u8]) -> bool
    ensures value { result ≡ is_whole digits.now }
    ensures digits { IsTrue result → All IsAsciiDigit digits.now }
{
    let Some((first, rest)) = digits.split_first() else {
        return false;
    };
    are_digits(digits) && (*first != b'0' || rest.is_empty())
}

/// Whether all of it is decimal digits.
fn are_digits(bytes: &[u8]) -> bool
    ensures value { result ≡ list_all is_ascii_digit bytes.now }
    ensures digits { IsTrue result → All IsAsciiDigit bytes.now }
{
    bytes.iter().all(|byte| byte.is_ascii_digit())
}

/// The digits after the point, where the text is a point and digits; none where it is empty.
fn fraction_digits(rest: &[u8]) -> Option<&[u8]>
    ensures value { option_copied result ≡ fraction_of rest.now }
    ensures digits { IfSome result (λ digits. All IsAsciiDigit digits.now) }
{
    let Some((point, digits)) = rest.split_first() else {
        return Some(rest);
    };
    if *point != b'.' || digits.is_empty() || !are_digits(digits) {
        return None;
    }
    Some(digits)
}

/// Whether the digits past the second are zeros.
fn are_zeros_past_second(fraction: &[u8]) -> bool
    ensures { result ≡ list_all (λ digit. digit == 0x30) (drop 2 fraction.now) }
{
    fraction.iter().skip(2).all(|digit| *digit == b'0')
}

/// The number that decimal digits spell.
fn decimal(digits: &[u8]) -> u64
    requires few { length digits.now ≤ 10 }
    requires digits { All IsAsciiDigit digits.now }
    ensures value { result ≡ decimal_value digits.now }
    ensures bound { result < 10000000000 }
{
    let mut value = 0;
    for digit in digits {
        value = 10 * value + u64::from(digit - b'0');
    }
    value
}

/// The minor units of the first two digits after the point.
fn hundredths(fraction: &[u8]) -> u64
    requires { All IsAsciiDigit fraction.now }
    ensures value { result ≡ decimal_value (take 2 (fraction.now ++ 0x30 ∷ 0x30 ∷ [])) }
    ensures bound { result < 100 }
{
    match fraction {
        [] => 0,
        [tenths] => 10 * u64::from(tenths - b'0'),
        [tenths, hundredths, ..] => u64::from(10 * (tenths - b'0') + (hundredths - b'0')),
    }
}

/// What is read from a text is exactly the amount that it spells, and a text spells one amount at most.
pub fn law_amounts()
    ensures meaning { (text : List ℕ) (units : ℕ) → (minor_units text ≡ Some units) ↔ SpellsAmount text units }
    ensures one { (text : List ℕ) (units other : ℕ) → SpellsAmount text units → SpellsAmount text other → units ≡ other }
{}
