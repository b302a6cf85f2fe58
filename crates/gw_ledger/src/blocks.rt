//! The slots of the records that have a key, sorted by it, in blocks: so one more slot moves those of one block, and not all.
ghost use Rattle.std.specs.Prelude.{◌≡◌, ◌+◌, ◌<◌, ◌≤◌, ◌==◌, if◌then◌else◌, length, take, drop, IfOk, IfErr, OnOk, IsSome, Some, None, slice_index_or, slice_set, vec_len, vec_capacity, insert, []};
ghost use Rattle.std.specs.declared.cmp.Ordering.{Ordering};
ghost use Rattle.gw_base.specs.Key.{key_cmp};
ghost use Rattle.gw_ledger.specs.Blocks.{AreBlocks, IsBlockFor, IsInserted, all_slots, first_in, first_rows, slot_lists, start_of};
ghost use Rattle.gw_ledger.specs.Keys.{key_at};
ghost use Rattle.gw_ledger.specs.KeyTable.{AreKeyed, HaveTheirKeys, key_rows};
ghost use Rattle.gw_ledger.specs.Table.{IsGapFor, IsRowOf, IsTable, value_at};

use crate::keys;
use crate::tables::Tables;
use arrayvec::ArrayVec;
use gw_base::Key;
use std::alloc::{AllocError, Global};
use std::cmp::Ordering;
use std::marker::Model;

/// How many slots a block has at most.
const MOST: usize = 128;

/// How many slots a block of a ledger that was just read has: it takes 32 more before it is split.
const FILLED: usize = 96;

/// Slots next to one another.
// The key of the first is beside them, so that a search among the blocks reads no record.
#[derive(Drop)]
struct Block {
    key: Key,
    slots: ArrayVec<u32, 128>,
}

impl Model for Block {
    ghost use Rattle.gw_ledger.specs.Blocks.{BlockValue};

    ghost Value = { BlockValue };

    ghost view = { λ b. record { key = b.key; slots = b.slots.items } };
}

impl Block {
    /// The block of these slots.
    fn of(tables: &Tables, slots: &[u32]) -> Block
        requires some { 0 < length slots.now }
        requires fit { length slots.now ≤ 128 }
        requires keyed { IsSome (key_at tables.now.records (first_in slots.now)) }
        ensures key { key_at tables.now.records (first_in slots.now) ≡ Some result.key }
        ensures slots { result.slots ≡ slots.now }
    {
        let Some(key) = tables.key_at(slots[0]) else {
            unreachable!()
        };
        let mut block = ArrayVec::new();
        match block.try_extend_from_slice(slots) {
            Ok(()) => {}
            Err(_) => unreachable!(),
        }
        Block { key, slots: block }
    }

    /// The slots.
    fn as_slice(&self) -> &[u32]
        ensures value { result.now ≡ self.now.slots }
        ensures fits { length self.now.slots ≤ 128 }
    {
        self.slots.as_slice()
    }

    /// Inserts the slot of a key, for which there is room, and says whether there is none for another.
    fn insert(&mut self, at: usize, key: &Key, slot: u32) -> bool
        requires inside { at ≤ length self.old.slots }
        requires room { length self.old.slots < 128 }
        ensures key { self.new.key ≡ (if at == 0 then key.now else self.old.key) }
        ensures slots { self.new.slots ≡ insert self.old.slots at slot }
        ensures full { result ≡ (length self.new.slots == 128) }
    {
        if at == 0 {
            self.key = *key;
        }
        self.slots.insert(at, slot);
        self.slots.is_full()
    }

    /// Leaves the first half of a full block, and returns the second.
    fn split(&mut self, tables: &Tables) -> Block
        requires full { length self.old.slots ≡ 128 }
        requires keyed { AreKeyed tables.now.records self.old.slots }
        ensures same_key { self.new.key ≡ self.old.key }
        ensures first { self.new.slots ≡ take 64 self.old.slots }
        ensures key { key_at tables.now.records (first_in (drop 64 self.old.slots)) ≡ Some result.key }
        ensures second { result.slots ≡ drop 64 self.old.slots }
    {
        let second = Block::of(tables, &self.slots.as_slice()[MOST / 2..]);
        self.slots.truncate(MOST / 2);
        second
    }
}

/// The slots in blocks, none of which is empty or full.
///
/// A contract sees the slots, the key of each block with its first slot, and for how many more slots there is room at least.
#[derive(Drop)]
pub struct Blocks {
    blocks: Vec<Block>,
}

impl Model for Blocks {
    ghost use Rattle.gw_ledger.specs.Blocks.{AreBlocks, BlocksValue, all_slots, first_rows, slot_lists};
    ghost use Rattle.gw_ledger.specs.Records.{room_in};

    ghost Value = { BlocksValue };

    ghost view = { λ l. record { slots = all_slots (slot_lists l.blocks.items); firsts = first_rows l.blocks.items; spare = room_in l.blocks } };

    ghost invariant = { λ l. AreBlocks (slot_lists l.blocks.items) };
}

impl Blocks {
    /// The blocks of these slots.
    pub fn of(alloc: Global, tables: &Tables, slots: &[u32]) -> Result<Blocks, AllocError>
        requires { AreKeyed tables.now.records slots.now }
        ensures slots { IfOk result (λ blocks. blocks.slots ≡ slots.now) }
        ensures keys { IfOk result (λ blocks. HaveTheirKeys tables.now.records blocks.firsts) }
    {
        let mut blocks = Vec::new(alloc);
        let mut rest = slots;
        while !rest.is_empty() {
            let (first, more) = rest.split_at(rest.len().min(FILLED));
            blocks.push(Block::of(tables, first))?;
            rest = more;
        }
        Ok(Blocks { blocks })
    }

    /// Makes room for so many more slots, each of which makes at most one new block.
    pub fn reserve(&mut self, more: usize) -> Result<(), AllocError>
        ensures slots { self.new.slots ≡ self.old.slots }
        ensures firsts { self.new.firsts ≡ self.old.firsts }
        ensures spare { self.old.spare ≤ self.new.spare }
        ensures ok { OnOk result (more ≤ self.new.spare) }
    {
        self.blocks.reserve(more)
    }

    /// The slot of the key.
    pub fn get(&self, tables: &Tables, key: &Key) -> Option<u32>
        requires table { IsTable key_cmp (key_rows tables.now.records self.now.slots) }
        requires keyed { AreKeyed tables.now.records self.now.slots }
        requires keys { HaveTheirKeys tables.now.records self.now.firsts }
        ensures { result ≡ value_at key_cmp (key_rows tables.now.records self.now.slots) key.now }
    {
        if self.blocks.is_empty() {
            return None;
        }
        let at = block_for(&self.blocks, key);
        get_in(tables, &self.blocks, at, key)
    }

    /// Inserts the slot of a record with a new key.
    pub fn insert(&mut self, tables: &Tables, key: &Key, slot: u32)
        requires table { IsTable key_cmp (key_rows tables.now.records self.old.slots) }
        requires keyed { AreKeyed tables.now.records self.old.slots }
        requires keys { HaveTheirKeys tables.now.records self.old.firsts }
        requires new { value_at key_cmp (key_rows tables.now.records self.old.slots) key.now ≡ None }
        requires own { key_at tables.now.records slot ≡ Some key.now }
        requires spare { 1 ≤ self.old.spare }
        ensures inserted { IsInserted tables.now.records self.old.slots key.now slot self.new.slots }
        ensures keys { HaveTheirKeys tables.now.records self.new.firsts }
        ensures spare { self.old.spare ≤ self.new.spare + 1 }
    {
        if self.blocks.is_empty() {
            insert_block(&mut self.blocks, 0, Block::of(tables, &[slot]));
            return;
        }
        let at = block_for(&self.blocks, key);
        let index = gap_in(tables, &self.blocks, at, key);
        insert_in(tables, &mut self.blocks, at, index, key, slot);
    }
}

/// Where the first slot of a block has the key, or where a block that begins with it would come.
fn search_firsts(blocks: &[Block], key: &Key) -> Result<usize, usize>
    requires { IsTable key_cmp (first_rows blocks.now) }
    ensures found { IfOk result (IsRowOf key_cmp (first_rows blocks.now) key.now) }
    ensures absent { IfErr result (IsGapFor key_cmp (first_rows blocks.now) key.now) }
{
    blocks.binary_search_by(
        |block: &Block| -> Ordering
            ensures { result ≡ key_cmp block.entry.now.key key.entry.now }
        { block.key.cmp(key) },
    )
}

/// The block that the key belongs into.
fn block_for(blocks: &[Block], key: &Key) -> usize
    requires some { 0 < length blocks.now }
    requires table { IsTable key_cmp (first_rows blocks.now) }
    ensures { IsBlockFor (first_rows blocks.now) key.now result }
{
    match search_firsts(blocks, key) {
        Ok(at) => at,
        Err(after) => after.saturating_sub(1),
    }
}

/// The slot of the key, which belongs into this block.
fn get_in(tables: &Tables, blocks: &[Block], at: usize, key: &Key) -> Option<u32>
    requires blocks { AreBlocks (slot_lists blocks.now) }
    requires table { IsTable key_cmp (key_rows tables.now.records (all_slots (slot_lists blocks.now))) }
    requires keyed { AreKeyed tables.now.records (all_slots (slot_lists blocks.now)) }
    requires keys { HaveTheirKeys tables.now.records (first_rows blocks.now) }
    requires block { IsBlockFor (first_rows blocks.now) key.now at }
    ensures { result ≡ value_at key_cmp (key_rows tables.now.records (all_slots (slot_lists blocks.now))) key.now }
{
    let slots = blocks[at].as_slice();
    match keys::search(tables, slots, key) {
        Ok(index) => Some(slots[index]),
        Err(_) => None,
    }
}

/// Where the slot of a new key, which belongs into this block, comes in it.
fn gap_in(tables: &Tables, blocks: &[Block], at: usize, key: &Key) -> usize
    requires blocks { AreBlocks (slot_lists blocks.now) }
    requires table { IsTable key_cmp (key_rows tables.now.records (all_slots (slot_lists blocks.now))) }
    requires keyed { AreKeyed tables.now.records (all_slots (slot_lists blocks.now)) }
    requires keys { HaveTheirKeys tables.now.records (first_rows blocks.now) }
    requires block { IsBlockFor (first_rows blocks.now) key.now at }
    requires new { value_at key_cmp (key_rows tables.now.records (all_slots (slot_lists blocks.now))) key.now ≡ None }
    ensures inside { result ≤ length (slice_index_or (slot_lists blocks.now) at []) }
    ensures gap { IsGapFor key_cmp (key_rows tables.now.records (all_slots (slot_lists blocks.now))) key.now (start_of (slot_lists blocks.now) at + result) }
{
    match keys::search(tables, blocks[at].as_slice(), key) {
        Ok(_) => unreachable!(),
        Err(index) => index,
    }
}

/// Inserts the slot of a key in a block, and splits it where it is full then.
fn insert_in(
    tables: &Tables,
    blocks: &mut Vec<Block>,
    at: usize,
    index: usize,
    key: &Key,
    slot: u32,
)
    requires blocks { AreBlocks (slot_lists blocks.old.items) }
    requires keyed { AreKeyed tables.now.records (slice_index_or (slot_lists blocks.old.items) at []) }
    requires keys { HaveTheirKeys tables.now.records (first_rows blocks.old.items) }
    requires own { key_at tables.now.records slot ≡ Some key.now }
    requires block { at < vec_len blocks.old }
    requires inside { index ≤ length (slice_index_or (slot_lists blocks.old.items) at []) }
    requires room { vec_len blocks.old < vec_capacity blocks.old }
    ensures blocks { AreBlocks (slot_lists blocks.new.items) }
    ensures inserted { all_slots (slot_lists blocks.new.items) ≡ insert (all_slots (slot_lists blocks.old.items)) (start_of (slot_lists blocks.old.items) at + index) slot }
    ensures keys { HaveTheirKeys tables.now.records (first_rows blocks.new.items) }
    ensures len { vec_len blocks.new ≤ vec_len blocks.old + 1 }
    ensures capacity { vec_capacity blocks.old ≤ vec_capacity blocks.new }
{
    if blocks[at].insert(index, key, slot) {
        split(tables, blocks, at);
    }
}

/// Makes two blocks of a full one.
fn split(tables: &Tables, blocks: &mut Vec<Block>, at: usize)
    requires block { at < vec_len blocks.old }
    requires full { length (slice_index_or (slot_lists blocks.old.items) at []) ≡ 128 }
    requires keyed { AreKeyed tables.now.records (slice_index_or (slot_lists blocks.old.items) at []) }
    requires keys { HaveTheirKeys tables.now.records (first_rows blocks.old.items) }
    requires room { vec_len blocks.old < vec_capacity blocks.old }
    ensures halves { slot_lists blocks.new.items ≡ insert (slice_set (slot_lists blocks.old.items) at (take 64 (slice_index_or (slot_lists blocks.old.items) at []))) (at + 1) (drop 64 (slice_index_or (slot_lists blocks.old.items) at [])) }
    ensures keys { HaveTheirKeys tables.now.records (first_rows blocks.new.items) }
    ensures len { vec_len blocks.new ≡ vec_len blocks.old + 1 }
    ensures capacity { vec_capacity blocks.old ≤ vec_capacity blocks.new }
{
    let second = blocks[at].split(tables);
    insert_block(blocks, at + 1, second);
}

/// Inserts a block, for which there is room.
fn insert_block(blocks: &mut Vec<Block>, at: usize, block: Block)
    requires inside { at ≤ vec_len blocks.old }
    requires room { vec_len blocks.old < vec_capacity blocks.old }
    ensures inserted { blocks.new.items ≡ insert blocks.old.items at block }
    ensures len { vec_len blocks.new ≡ vec_len blocks.old + 1 }
    ensures capacity { vec_capacity blocks.old ≤ vec_capacity blocks.new }
{
    match blocks.insert(at, block) {
        Ok(()) => {}
        Err(_) => unreachable!(),
    }
}
