//! The number that digits spell.
ghost use Rattle.std.specs.Prelude.{◌≡◌, ℕ, ◌+◌, ◌-◌, ◌*◌, ◌^◌, ◌≤◌, MatchOption};
ghost use Rattle.sale_seen.specs.inner.Spelled.{spelled_on, after_byte};

/// The number that the digits of the text spell, whatever bytes are among them; `None` where 64 bits don't hold it.
pub(crate) fn spelled(text: &[u8]) -> Option<u64>
    ensures { MatchOption result (2 ^ 64 ≤ spelled_on 0 text.now) (λ n. n ≡ spelled_on 0 text.now) }
{
    let mut value: u64 = 0;
    for byte in text {
        match after_byte(value, *byte) {
            None => return None,
            Some(longer) => value = longer,
        }
    }
    Some(value)
}

/// The number with one more byte after it, which counts where it is a digit.
fn after_byte(value: u64, byte: u8) -> Option<u64>
    ensures { MatchOption result (2 ^ 64 ≤ after_byte value byte) (λ n. n ≡ after_byte value byte) }
{
    if !byte.is_ascii_digit() {
        return Some(value);
    }
    value.checked_mul(10)?.checked_add(u64::from(byte - b'0'))
}
