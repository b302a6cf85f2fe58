//! What a terminal shows of the outputs of a Display.
ghost use Rattle.std.specs.Prelude.{◌≡◌, List, ℕ, map, option_map, find, bytes_eq, codes};
ghost use Rattle.std.specs.Option.{option_copied};
ghost use Rattle.arrayvec.specs.ArrayVec.{ArrayVec};
ghost use Rattle.xlate.specs.Display.{customer_output, is_for_customer, show, display_line, display_lines};

use gw_base::byte_of_437;
use gw_bytes::{LONGEST_SHOWN_LINE, MOST_SHOWN_LINES};
use sale_values::{Output, Outputs, Texts};
use zvt_msg::{Command, Line, Lines};

/// The command that shows the first output for `CustomerDisplay`: the first eight of its texts, the first 40 characters of
/// each. `None` where no output is for that device.
pub fn show_of(outputs: &Outputs) -> Option<Command>
    ensures { result ≡ show outputs.now }
{
    match customer_output(outputs.as_slice()) {
        None => None,
        Some(output) => Some(Command::Show {
            lines: display_lines(&output.texts),
        }),
    }
}

/// The first output for the customer's display.
fn customer_output(outputs: &[Output]) -> Option<&Output>
    ensures { option_copied result ≡ customer_output outputs.now }
{
    for output in outputs {
        if is_for_customer(output) {
            return Some(output);
        }
    }
    None
}

/// Whether the output is for the customer's display.
fn is_for_customer(output: &Output) -> bool
    ensures { result ≡ is_for_customer output.now }
{
    output.device.as_bytes() == b"CustomerDisplay".as_slice()
}

/// The lines of an output's texts; none where it has no texts.
fn display_lines(texts: &Option<Texts>) -> Lines
    ensures { map (λ (line : ArrayVec ℕ). line.items) result.items ≡ display_lines texts.now }
{
    let mut lines = Lines::new();
    if let Some(texts) = texts {
        for text in texts.as_slice().iter().take(MOST_SHOWN_LINES) {
            lines.push(display_line(text.as_str()));
        }
    }
    lines
}

/// The line of a text.
fn display_line(text: &str) -> Line
    ensures { result.items ≡ display_line text.now }
{
    let mut line = Line::new();
    for c in text.chars().take(LONGEST_SHOWN_LINE) {
        line.push(byte_of_437(c));
    }
    line
}
