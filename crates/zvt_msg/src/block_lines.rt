//! The lines to print of a block.

ghost use Rattle.std.specs.Prelude.{◌≡◌, ◌∷◌, [], ◌<◌, length, MatchOption, OnSome, IfSome};
ghost use Rattle.std.specs.Iterator.{YieldsFirstRef, item_count};
ghost use Rattle.zvt_msg.specs.BlockGrammar.{AreWholeObjects, AreBlockLines};
ghost use Rattle.zvt_msg.specs.inner.Results.{ReturnsNextLine};
ghost use Rattle.zvt_msg.specs.BlockDecode.{decode_values_with_tag, block_lines_from, decode_block_lines};

use crate::block::{LINE, TEXT, next_object};
use gw_bytes::MOST_PRINTED_LINES;
use std::marker::Model;
use zvt_tlv::Tlv;

/// The lines to print of a block, in the terminal's character set: the values of the objects `07` inside of the objects
/// `25` of its container, in order, and of them the first 400.
///
/// Contracts see the lines that are still to come. No line is copied: each borrows from the APDU that was read.
#[derive(Clone, Debug, Drop)]
pub struct Lines437<'a> {
    /// How many more are given at most.
    left: usize,
    /// The objects of the container that are not reached yet.
    objects: Tlv<'a>,
    /// The objects inside of the one that is being read.
    lines: Tlv<'a>,
}

impl<'a> Model for Lines437<'a> {
    ghost use Rattle.std.specs.Prelude.{ℕ, List, take};
    ghost use Rattle.zvt_msg.specs.BlockDecode.{block_lines_from};

    ghost Value = { List (List ℕ) };

    ghost view = { λ r. take r.left (block_lines_from r.lines.rest r.objects.rest) };
}

impl<'a> Lines437<'a> {
    /// The lines of a block, by the objects that [`PtMessage::Block`](crate::PtMessage::Block) has.
    pub fn over(block: &'a [u8]) -> Lines437<'a>
        ensures lines { AreWholeObjects block.now → AreBlockLines block.now result }

        // The lines, by the function that computes them, for any bytes.
        ensures computes { result ≡ decode_block_lines block.now }
    {
        Lines437 {
            left: MOST_PRINTED_LINES,
            objects: Tlv::over(block),
            lines: Tlv::over(&[]),
        }
    }
}

impl<'a> Iterator for Lines437<'a> {
    type Item = &'a [u8];

    ghost next_gives = { YieldsFirstRef (λ lines. lines) };

    ghost remaining = { item_count (λ lines. lines) };

    fn next(&mut self) -> Option<&'a [u8]> {
        if self.left == 0 {
            return None;
        }
        let line = next_line(&mut self.objects, &mut self.lines)?;
        self.left -= 1;
        Some(line)
    }
}

/// The next line, of those in `lines` first and then of those inside of `objects`.
fn next_line<'a>(objects: &mut Tlv<'a>, lines: &mut Tlv<'a>) -> Option<&'a [u8]>
    ensures { ReturnsNextLine (block_lines_from lines.old.rest objects.old.rest) result (block_lines_from lines.new.rest objects.new.rest) }
{
    loop {
        if let Some(line) = next_value(LINE, lines) {
            return Some(line);
        }
        // One text's lines after another's, so that no list of them is made.
        *lines = Tlv::over(next_value(TEXT, objects)?);
    }
}

/// The value of the next object with this tag.
fn next_value<'a>(tag: u32, tlv: &mut Tlv<'a>) -> Option<&'a [u8]>
    ensures value { ReturnsNextLine (decode_values_with_tag tag tlv.old.rest) result (decode_values_with_tag tag tlv.new.rest) }
    ensures shorter { OnSome result (length tlv.new.rest < length tlv.old.rest) }
{
    while let Some(object) = next_object(tlv) {
        if object.tag == tag {
            return Some(object.value);
        }
    }
    None
}
