//! Reading the lines of a display.

ghost use Rattle.std.specs.Prelude.{◌≤◌, length, IfSome};
ghost use Rattle.zvt_msg.specs.CommandDecode.{decode_display_line, decode_display_lines};
ghost use Rattle.zvt_msg.specs.inner.Results.{ReturnsDisplayLine, ReturnsDisplayLines};

use crate::command::{Line, Lines};
use gw_bytes::LONGEST_SHOWN_LINE;
use zvt_bmp::digit_of;

/// The lines of a display that fill the bytes.
#[tactic(auto, unfolding(crate::specs::CommandDecode::decode_display_lines))]
pub(crate) fn read_lines(bytes: &[u8]) -> Option<Lines>
    ensures { ReturnsDisplayLines result (decode_display_lines bytes.now) }
{
    let mut lines = Lines::new();
    let mut rest = bytes;
    while let [number, text @ ..] = rest {
        if lines.is_full() || *number != 0xF1 + lines.len() as u8 {
            return None;
        }
        let (line, after) = read_line(text)?;
        lines.push(line);
        rest = after;
    }
    Some(lines)
}

/// The line that the bytes begin with, by its length, and what follows it.
fn read_line(bytes: &[u8]) -> Option<(Line, &[u8])>
    ensures line { ReturnsDisplayLine result (decode_display_line bytes.now) }
    ensures shorter { IfSome result (λ found. length found.1.now ≤ length bytes.now) }
{
    let [tens, units, rest @ ..] = bytes else {
        return None;
    };
    let length = 10 * digit_of(*tens)? + digit_of(*units)?;
    if length > LONGEST_SHOWN_LINE || rest.len() < length {
        return None;
    }
    let (text, rest) = rest.split_at(length);
    let mut line = Line::new();
    line.try_extend_from_slice(text).unwrap();
    Some((line, rest))
}
