//! Laws of the definitions that the contracts cite. Each function does nothing: its contract is the law.
ghost use Rattle.std.specs.Prelude.{◌≡◌, ◌↔◌, List, ℕ, ◌≤◌, length, Result, Ok, IfSome};
ghost use Rattle.zvt_bmp.specs.declared.fields.Fields.{Fields};
ghost use Rattle.zvt_bmp.specs.declared.fields.FieldFault.{FieldFault};
ghost use Rattle.zvt_bmp.specs.Grammar.{SpellsStatusOrFault};
ghost use Rattle.zvt_bmp.specs.Decode.{decode_status};
ghost use Rattle.zvt_bmp.specs.Canonical.{HasFieldDigits, canonical_status};
ghost use Rattle.zvt_bmp.specs.Example.{greatest_data, greatest_fields};

use gw_base::law_bcd;

/// The function that computes the status that data spell agrees with the grammar: data spell one status or have one first
/// fault.
pub fn law_decode_status()
    ensures { (bytes : List ℕ) (result : Result Fields FieldFault) → (decode_status bytes ≡ result) ↔ SpellsStatusOrFault bytes result }
{}

/// What was read can be written again: each number has at most as many digits as its field, a currency has two bytes, and
/// the written fields have at most 19 bytes. The example has the greatest numbers, and that size.
pub fn law_fields_fit()
    ensures digits { (bytes : List ℕ) (fields : Fields) → decode_status bytes ≡ Ok fields → HasFieldDigits fields }
    ensures currency { (bytes : List ℕ) (fields : Fields) → decode_status bytes ≡ Ok fields
        → IfSome fields.currency (λ currency. length currency ≡ 2) }
    ensures size { (bytes : List ℕ) (fields : Fields) → decode_status bytes ≡ Ok fields → length (canonical_status fields) ≤ 19 }
    ensures example { decode_status greatest_data ≡ Ok greatest_fields }
    ensures example_size { length (canonical_status greatest_fields) ≡ 19 }
{}

/// Fields that were written are read again as the same fields, with the written length as the offset of the tail.
pub fn law_read_again()
    ensures { (fields : Fields) → HasFieldDigits fields → IfSome fields.currency (λ currency. length currency ≡ 2)
        → decode_status (canonical_status fields) ≡ Ok (record fields { tail = length (canonical_status fields) }) }
{
    law_bcd();
}
