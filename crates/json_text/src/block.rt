//! Some of the numbers of a list that lies in blocks.
ghost use Rattle.std.specs.Prelude.{◌≡◌, ◌<◌, ◌≤◌, [], ◌∷◌, length, take, drop, is_ok, if◌then◌else◌, IfOk};
ghost use Rattle.std.specs.Bool.{OnTrue};
ghost use Rattle.std.specs.List.{insert};

use std::alloc::{AllocError, Global};

/// A block that has so many numbers is divided.
const FULL: usize = 512;

/// Numbers next to one another, of which there is one at least.
#[derive(Drop)]
pub(crate) struct Block {
    numbers: Vec<u32>,
    ghost some: { 0 < length numbers.items },
}

impl Block {
    /// The block of one number.
    pub(crate) fn new(alloc: Global, number: u32) -> Result<Block, AllocError>
        ensures { IfOk result (λ block. block.numbers.items ≡ number ∷ []) }
    {
        Ok(Block {
            numbers: Vec::from_slice(alloc, &[number])?,
        })
    }

    /// The numbers.
    pub(crate) fn as_slice(&self) -> &[u32]
        ensures value { result.now ≡ self.now.numbers.items }
        ensures some { 0 < length result.now }
    {
        &self.numbers
    }

    /// Whether the block is to be divided.
    pub(crate) fn is_full(&self) -> bool
        ensures { OnTrue result (512 ≤ length self.now.numbers.items) }
    {
        self.numbers.len() >= FULL
    }

    /// Inserts a number.
    pub(crate) fn insert(&mut self, index: usize, number: u32) -> Result<(), AllocError>
        requires { index ≤ length self.old.numbers.items }
        ensures { self.new.numbers.items ≡ (if is_ok result then insert self.old.numbers.items index number else self.old.numbers.items) }
    {
        self.numbers.insert(index, number)?;
        Ok(())
    }

    /// A copy of the second half of a full block.
    pub(crate) fn second_half(&self, alloc: Global) -> Result<Block, AllocError>
        requires { 512 ≤ length self.now.numbers.items }
        ensures { IfOk result (λ block. block.numbers.items ≡ drop 256 self.now.numbers.items) }
    {
        Ok(Block {
            numbers: Vec::from_slice(alloc, &self.numbers[FULL / 2..])?,
        })
    }

    /// Leaves the first half of a full block.
    pub(crate) fn leave_first_half(&mut self)
        requires { 512 ≤ length self.old.numbers.items }
        ensures { self.new.numbers.items ≡ take 256 self.old.numbers.items }
    {
        self.numbers.truncate(FULL / 2);
    }
}
