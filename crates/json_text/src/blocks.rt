//! A list of numbers in blocks: one more number moves those of one block, and not all that come after it.
ghost use Rattle.std.specs.Prelude.{◌≡◌, ◌<◌, ◌≤◌, [], length, is_ok, OnOk, slice_index_or, vec_len};
ghost use Rattle.json_text.specs.inner.NumberBlocks.{all_numbers, number_lists};
ghost use Rattle.json_text.specs.inner.MemberOrder.{with_number};

use crate::block::Block;
use std::alloc::{AllocError, Global};

/// A gap between numbers: a block, and how many of its numbers come before. There is one after the last block, too.
#[derive(Clone, Copy)]
pub(crate) struct Gap {
    pub block: usize,
    pub before: usize,
}

/// Inserts a number at a gap.
pub(crate) fn insert(
    alloc: Global,
    blocks: &mut Vec<Block>,
    gap: Gap,
    number: u32,
) -> Result<(), AllocError>
    requires block { gap.block ≤ vec_len blocks.old }
    requires before { gap.before ≤ length (slice_index_or (number_lists blocks.old.items) gap.block []) }
    ensures numbers { all_numbers (number_lists blocks.new.items) ≡ with_number (number_lists blocks.old.items) gap number (is_ok result) }
    ensures block { OnOk result (gap.block < vec_len blocks.new) }
{
    if gap.block < blocks.len() {
        insert_in(blocks, gap, number)
    } else {
        blocks.push(Block::new(alloc, number)?)?;
        Ok(())
    }
}

/// Inserts a number in a block.
fn insert_in(blocks: &mut Vec<Block>, gap: Gap, number: u32) -> Result<(), AllocError>
    requires block { gap.block < vec_len blocks.old }
    requires before { gap.before ≤ length (slice_index_or (number_lists blocks.old.items) gap.block []) }
    ensures numbers { all_numbers (number_lists blocks.new.items) ≡ with_number (number_lists blocks.old.items) gap number (is_ok result) }
    ensures len { vec_len blocks.new ≡ vec_len blocks.old }
{
    blocks[gap.block].insert(gap.before, number)
}

/// Makes two blocks of this one if it is full.
pub(crate) fn divide(alloc: Global, blocks: &mut Vec<Block>, block: usize) -> Result<(), AllocError>
    requires { block < vec_len blocks.old }
    ensures { all_numbers (number_lists blocks.new.items) ≡ all_numbers (number_lists blocks.old.items) }
{
    if blocks[block].is_full() {
        let second = blocks[block].second_half(alloc)?;
        blocks.insert(block + 1, second)?;
        blocks[block].leave_first_half();
    }
    Ok(())
}
