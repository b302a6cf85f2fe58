//! Laws of records and their bodies.
ghost use Rattle.std.specs.Prelude.{◌≡◌, ◌≢◌, ℕ, List, length};
ghost use Rattle.jrn_record.specs.Limits.{IsRecord};
ghost use Rattle.jrn_record.specs.Grammar.{record_body, record_fields};
ghost use Rattle.jrn_record.specs.Table.{Agree, IsFirstRecordFault, table_at, table_of};
ghost use Rattle.jrn_record.specs.declared.records.Record.{Record};

/// A body has 255 bytes, each field of the record is at its offset of the table, a body is that of one
/// record, a body with a fault is that of none, and it has one first fault.
pub fn law_bodies()
    ensures size { (the_record : Record) → IsRecord the_record → length (record_body the_record) ≡ 255 }
    ensures offsets { (the_record : Record) → IsRecord the_record
        → Agree (length (table_of the_record)) (record_fields the_record) (table_of the_record) (record_body the_record) }
    ensures one_record { (a b : Record) → IsRecord a → IsRecord b → record_body a ≡ record_body b → a ≡ b }
    ensures faulty { (body : List ℕ) (reported : ℕ) → IsFirstRecordFault (table_at body) body reported
        → (the_record : Record) → IsRecord the_record → body ≢ record_body the_record }
    ensures one_fault { (body : List ℕ) (reported other : ℕ) → IsFirstRecordFault (table_at body) body reported
        → IsFirstRecordFault (table_at body) body other → reported ≡ other }
{}
