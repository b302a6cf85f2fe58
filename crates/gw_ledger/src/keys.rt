//! A search among the slots of records that have a key, sorted by it.
ghost use Rattle.std.specs.Prelude.{◌≡◌, IfOk, IfErr, slice_get};
ghost use Rattle.std.specs.declared.cmp.Ordering.{Ordering};
ghost use Rattle.gw_base.specs.Key.{key_cmp};
ghost use Rattle.gw_ledger.specs.KeyTable.{AreKeyed, compare_record, key_rows};
ghost use Rattle.gw_ledger.specs.Table.{IsGapFor, IsRowOf, IsTable};

use crate::tables::Tables;
use gw_base::Key;
use std::cmp::Ordering;

/// Where the slot of the key is, or where it would come.
pub fn search(tables: &Tables, slots: &[u32], key: &Key) -> Result<usize, usize>
    requires table { IsTable key_cmp (key_rows tables.now.records slots.now) }
    requires keyed { AreKeyed tables.now.records slots.now }
    ensures found { IfOk result (IsRowOf key_cmp (key_rows tables.now.records slots.now) key.now) }
    ensures absent { IfErr result (IsGapFor key_cmp (key_rows tables.now.records slots.now) key.now) }
{
    slots.binary_search_by(
        |slot: &u32| -> Ordering
            ensures { result ≡ compare_record (slice_get tables.entry.now.records slot.entry.now) key.entry.now }
        { tables.compare_key(*slot, key) },
    )
}
