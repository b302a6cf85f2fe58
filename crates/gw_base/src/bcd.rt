//! Binary coded decimals: two digits in each byte, the more significant in its upper half.
ghost use Rattle.std.specs.Prelude.{◌≡◌, ◌↔◌, ℕ, ◌^◌, ◌<◌, ◌≤◌, List, length, IsTrue, MatchResult};
ghost use Rattle.gw_base.specs.Bcd.{IsBcd, IsFirstNotBcd, bcd_of, bcd_value, is_bcd, pair_byte, pair_value};

use std::error::Error;
use std::fmt;

/// A byte of which a half is above 9.
#[derive(Clone, Copy, PartialEq, Eq, Debug)]
pub struct NotDigits {
    /// The offset of the first such byte.
    pub at: usize,
}

impl fmt::Display for NotDigits {
    fn fmt<W: fmt::Write>(&self, f: &mut fmt::Formatter<W>) -> fmt::Result {
        write!(f, "no two digits at {}", self.at)
    }
}

impl Error for NotDigits {}

/// Writes the value's digits, the most significant first, two in each byte of `out`.
pub fn bcd_write(value: u64, out: &mut [u8])
    requires { value < 100 ^ length out.old }
    ensures { out.new ≡ bcd_of (length out.old) value }
{
    let mut rest = value;
    for offset in (0..out.len()).rev() {
        out[offset] = byte_of_pair((rest % 100) as u8);
        rest /= 100;
    }
}

/// Reads the number that the digits spell, the most significant first.
pub fn bcd_read(bytes: &[u8]) -> Result<u64, NotDigits>
    requires { length bytes.now ≤ 6 }
    ensures { MatchResult result (λ value. IsBcd bytes.now × (value ≡ bcd_value bytes.now))
        (λ fault. IsFirstNotBcd bytes.now fault.at) }
{
    let mut value = 0;
    for (offset, byte) in bytes.iter().enumerate() {
        if byte / 16 > 9 || byte % 16 > 9 {
            return Err(NotDigits { at: offset });
        }
        value = 100 * value + u64::from(10 * (byte / 16) + byte % 16);
    }
    Ok(value)
}

/// The byte of two digits.
fn byte_of_pair(pair: u8) -> u8
    requires { pair < 100 }
    ensures { result ≡ pair_byte pair }
{
    16 * (pair / 10) + pair % 10
}

/// Digits that were written are read again as the same value, a number has one spelling in so many bytes,
/// and the test of digits passes exactly the bytes that hold digits.
pub fn law_bcd()
    ensures read_again { (count value : ℕ) → value < 100 ^ count
        → IsBcd (bcd_of count value) × (bcd_value (bcd_of count value) ≡ value) }
    ensures one_spelling { (bytes : List ℕ) → IsBcd bytes → bcd_of (length bytes) (bcd_value bytes) ≡ bytes }
    ensures count { (count value : ℕ) → length (bcd_of count value) ≡ count }
    ensures test { (bytes : List ℕ) → IsTrue (is_bcd bytes) ↔ IsBcd bytes }
{}
