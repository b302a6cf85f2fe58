//! The keys of all records of a journal, sorted once.
ghost use Rattle.std.specs.Prelude.{◌≡◌, ◌≤◌, ◌<◌, ℕ, List, IfOk, IfSome, OnOk, MatchOption, IsSorted, length};
ghost use Rattle.gw_base.specs.Key.{key_cmp};
ghost use Rattle.gw_ledger.specs.Fold.{AreFirstBodiesOf};
ghost use Rattle.gw_ledger.specs.KeyTable.{AreKeyRows, IsLeastFall, row_cmp, rows_with, slots_in};
ghost use Rattle.gw_ledger.specs.ShortRows.{ArePairsOf, AreShort, HasPair, HavePairs, is_below, least_of, full_row, full_rows};
ghost use Rattle.gw_ledger.specs.Table.{IsTable};
ghost use Rattle.gw_ledger.specs.Tables.{pair_cmp};

use crate::table;
use crate::tables::Tables;
use gw_base::{Bodies, Ident, Key};
use jrn_record::Settled;
use std::alloc::{AllocError, Global};
use std::cmp::Ordering;
use std::marker::Model;

/// The tables of the records of these bodies, up to the first body that is no record or one that may not come after those
/// before it, whatever its key.
pub fn tables_of(alloc: Global, bodies: &Bodies) -> Result<Tables, AllocError>
    requires { length bodies.now ≤ 1000000 }
    ensures { IfOk result (λ tables. AreFirstBodiesOf bodies.now tables.records) }
{
    let mut tables = Tables::new(alloc);
    for body in bodies.as_slice() {
        if !tables.take_body(body)? {
            return Ok(tables);
        }
    }
    Ok(tables)
}

/// A key with its slot, short: the till and the terminal are those of a row of a table.
// It takes 40 bytes where a key with its slot takes 128: a sort compares and moves each row some twenty times.
#[derive(Clone, Copy, PartialEq, Eq, PartialOrd, Ord)]
pub struct ShortRow {
    /// The index of the till and the terminal.
    pair: usize,
    service: Ident<10>,
    slot: u32,
}

/// The keys of the records, each with its slot, sorted.
///
/// A contract sees the list of them.
#[derive(Drop)]
pub struct SortedKeys {
    /// By till and terminal, a slot.
    pairs: Vec<((Ident<40>, Ident<40>), u32)>,
    rows: Vec<ShortRow>,
}

impl Model for SortedKeys {
    ghost use Rattle.std.specs.Prelude.{List, ℕ};
    ghost use Rattle.gw_base.specs.declared.key.Key.{Key};
    ghost use Rattle.gw_ledger.specs.ShortRows.{AreShort, full_rows};

    ghost Value = { List (Key × ℕ) };

    ghost view = { λ k. full_rows k.pairs.items k.rows.items };

    ghost invariant = { λ k. AreShort k.pairs.items k.rows.items };
}

impl SortedKeys {
    /// The sorted keys of these tables.
    pub fn of(alloc: Global, tables: &Tables) -> Result<SortedKeys, AllocError>
        ensures rows { IfOk result (λ keys. AreKeyRows tables.now.records keys) }
        ensures sorted { IfOk result (λ keys. IsSorted row_cmp keys) }
    {
        let pairs = pairs_of(alloc, tables)?;
        let mut rows = short_rows(alloc, tables, &pairs)?;
        rows.sort_unstable();
        Ok(SortedKeys { pairs, rows })
    }

    /// The least slot of a row whose key isn't above that of the row before it; `None` where each key is below the next.
    pub fn least_fall(&self) -> Option<u32>
        ensures { MatchOption result (IsTable key_cmp self.now) (IsLeastFall self.now) }
    {
        let mut least = None;
        for at in 1..self.rows.len() {
            least = least_of(least, &self.rows[at - 1], &self.rows[at]);
        }
        least
    }

    /// The slots.
    pub fn slots(&self, alloc: Global) -> Result<Vec<u32>, AllocError>
        ensures { IfOk result (λ slots. slots.items ≡ slots_in self.now) }
    {
        let mut slots = Vec::with_capacity(alloc, self.rows.len())?;
        for row in &self.rows {
            slots.push(row.slot)?;
        }
        Ok(slots)
    }
}

/// A table that has the till and the terminal of each key.
fn pairs_of(
    alloc: Global,
    tables: &Tables,
) -> Result<Vec<((Ident<40>, Ident<40>), u32)>, AllocError>
    ensures { IfOk result (λ pairs. ArePairsOf tables.now.records pairs.items) }
{
    let mut pairs = tables.lasts(alloc)?;
    for slot in 0..tables.count() {
        add_pair(&mut pairs, tables.settled_at(slot), slot)?;
    }
    Ok(pairs)
}

/// Adds the till and the terminal of a Settled to their table.
fn add_pair(
    pairs: &mut Vec<((Ident<40>, Ident<40>), u32)>,
    settled: Option<Settled>,
    slot: u32,
) -> Result<(), AllocError>
    requires { IsTable pair_cmp pairs.old.items }
    ensures table { OnOk result (IsTable pair_cmp pairs.new.items) }
    ensures kept { OnOk result ((sale poi : List ℕ) → HasPair pairs.old.items sale poi → HasPair pairs.new.items sale poi) }
    ensures own { OnOk result (IfSome settled (λ settled. HasPair pairs.new.items settled.sale settled.poi)) }
{
    let Some(settled) = settled else {
        return Ok(());
    };
    pairs.reserve(1)?;
    table::put(pairs, (settled.sale, settled.poi), slot);
    Ok(())
}

/// The keys of the records, each with its slot, in the order of the slots.
fn short_rows(
    alloc: Global,
    tables: &Tables,
    pairs: &[((Ident<40>, Ident<40>), u32)],
) -> Result<Vec<ShortRow>, AllocError>
    requires { ArePairsOf tables.now.records pairs.now }
    ensures rows { IfOk result (λ rows. AreKeyRows tables.now.records (full_rows pairs.now rows.items)) }
    ensures inside { IfOk result (λ rows. HavePairs pairs.now rows.items) }
{
    let mut rows = Vec::new(alloc);
    for slot in 0..tables.count() {
        push_row(&mut rows, pairs, tables.key_at(slot), slot)?;
    }
    Ok(rows)
}

/// Appends the row of a slot, where it has a key.
fn push_row(
    rows: &mut Vec<ShortRow>,
    pairs: &[((Ident<40>, Ident<40>), u32)],
    key: Option<Key>,
    slot: u32,
) -> Result<(), AllocError>
    requires table { IsTable pair_cmp pairs.now }
    requires pair { IfSome key (λ key. HasPair pairs.now key.sale key.poi) }
    requires inside { HavePairs pairs.now rows.old.items }
    ensures rows { OnOk result (full_rows pairs.now rows.new.items ≡ rows_with (full_rows pairs.now rows.old.items) key slot) }
    ensures inside { OnOk result (HavePairs pairs.now rows.new.items) }
{
    let Some(key) = key else {
        return Ok(());
    };
    rows.push(short_row(pairs, &key, slot))?;
    Ok(())
}

/// The row of a key whose till and terminal the table has.
fn short_row(pairs: &[((Ident<40>, Ident<40>), u32)], key: &Key, slot: u32) -> ShortRow
    requires table { IsTable pair_cmp pairs.now }
    requires pair { HasPair pairs.now key.now.sale key.now.poi }
    ensures inside { result.pair < length pairs.now }
    ensures row { full_row pairs.now result ≡ (key.now, slot) }
{
    match table::search(pairs, &(key.sale, key.poi)) {
        Ok(pair) => ShortRow {
            pair,
            service: key.service,
            slot,
        },
        Err(_) => unreachable!(),
    }
}

/// The lesser of these slots: that of a row, where its key isn't above that of the row before it, and the least so far.
fn least_of(least: Option<u32>, before: &ShortRow, row: &ShortRow) -> Option<u32>
    ensures { result ≡ least_of least before.now row.now }
{
    if is_below(before, row) {
        return least;
    }
    match least {
        Some(slot) => Some(slot.min(row.slot)),
        None => Some(row.slot),
    }
}

/// Whether the key of a row is below that of another.
fn is_below(before: &ShortRow, row: &ShortRow) -> bool
    ensures { result ≡ is_below before.now row.now }
{
    match before
        .pair
        .cmp(&row.pair)
        .then(before.service.cmp(&row.service))
    {
        Ordering::Less => true,
        Ordering::Equal | Ordering::Greater => false,
    }
}
