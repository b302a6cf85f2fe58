//! Both alphabets of base 16, against the digits written out.
use crate::{lower_hex_digit, upper_hex_digit};

#[test]
fn digits_are_those_of_base_16(rt: HostRuntime) {
    let rows = [
        (0, b'0', b'0'),
        (9, b'9', b'9'),
        (10, b'a', b'A'),
        (15, b'f', b'F'),
    ];
    for (value, lower, upper) in rows {
        assert_eq!(rt; lower_hex_digit(value), lower);
        assert_eq!(rt; upper_hex_digit(value), upper);
    }
}
