//! Digits of base 16, in lower and upper case.
ghost use Rattle.std.specs.Prelude.{◌≡◌, ◌<◌};
ghost use Rattle.std.specs.Char.{digit_char};
ghost use Rattle.gw_bytes.specs.Hex.{upper_digit};

/// The digit of a value below 16, with `a` to `f`.
pub fn lower_hex_digit(value: u8) -> u8
    requires below { value < 16 }
    ensures digit { result ≡ digit_char value }
{
    if value < 10 {
        b'0' + value
    } else {
        b'a' + (value - 10)
    }
}

/// The digit of a value below 16, with `A` to `F`.
pub fn upper_hex_digit(value: u8) -> u8
    requires below { value < 16 }
    ensures digit { result ≡ upper_digit value }
{
    if value < 10 {
        b'0' + value
    } else {
        b'A' + (value - 10)
    }
}
