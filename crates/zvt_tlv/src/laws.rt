//! Laws of the definitions that the contracts cite. Each function does nothing: its contract is the law.
ghost use Rattle.std.specs.Prelude.{◌≡◌, ◌≢◌, ◌+◌, ◌<◌, ◌↔◌, ℕ, List, [], ◌++◌, length, None, Some};
ghost use Rattle.zvt_tlv.specs.Grammar.{ObjectValue, IsTag, SpellsTlvObject, BeginsWithTlvObject, canonical_tlv_object};
ghost use Rattle.zvt_tlv.specs.ObjectsGrammar.{BeginsWithTlvObjects, SpellsTlvObjects, IsMalformedTlvObject, IsEndOfTlvObjects, HasTlvFaultAt};
ghost use Rattle.zvt_tlv.specs.Decode.{decode_tlv_object};
ghost use Rattle.zvt_tlv.specs.ObjectsDecode.{with_first_tlv_object, decode_tlv_objects};
ghost use Rattle.zvt_tlv.specs.Reader.{TlvReaderValue, tlv_reader_over, PassesTlvObjects};

/// No object is a proper prefix of another: where the same bytes begin with two, these are one, and the same follows.
pub fn law_no_proper_prefix()
    ensures { (a b x y : List ℕ) (m n : ObjectValue) → SpellsTlvObject a m → SpellsTlvObject b n → a ++ x ≡ b ++ y
        → (a ≡ b) × (m ≡ n) × (x ≡ y) }
{}

/// What is written is an object, and is read again as the same one, whatever bytes follow.
pub fn law_read_again()
    ensures spelled { (object : ObjectValue) → IsTag object.tag → length object.value < 65536
        → SpellsTlvObject (canonical_tlv_object object.tag object.value) object }
    ensures read { (object : ObjectValue) (rest : List ℕ) → IsTag object.tag → length object.value < 65536
        → decode_tlv_object (canonical_tlv_object object.tag object.value ++ rest) ≡ Some (object, rest) }
{}

/// The function that computes the object that bytes begin with agrees with the grammar.
pub fn law_decode_object()
    ensures whole { (bytes : List ℕ) (object : ObjectValue) (rest : List ℕ)
        → (decode_tlv_object bytes ≡ Some (object, rest)) ↔ BeginsWithTlvObject bytes object rest }
    ensures none { (bytes : List ℕ) → ((bytes ≢ []) × (decode_tlv_object bytes ≡ None)) ↔ IsMalformedTlvObject bytes }
    ensures shorter { (bytes : List ℕ) (object : ObjectValue) (rest : List ℕ) → BeginsWithTlvObject bytes object rest
        → length rest < length bytes }
{}

/// Bytes are objects in one way, and calls of `next` find them: at the end they filled the bytes, and a fault has the
/// offset of the first that is malformed.
pub fn law_objects()
    ensures only { (bytes r s : List ℕ) (xs ys : List ObjectValue) → BeginsWithTlvObjects bytes xs r → IsEndOfTlvObjects r → BeginsWithTlvObjects bytes ys s
        → IsEndOfTlvObjects s → (xs ≡ ys) × (r ≡ s) }
    ensures end { (bytes : List ℕ) (objects : List ObjectValue) (reader : TlvReaderValue) → PassesTlvObjects (tlv_reader_over bytes) objects reader
        → reader.rest ≡ [] → SpellsTlvObjects bytes objects }
    ensures fault { (bytes : List ℕ) (objects : List ObjectValue) (reader : TlvReaderValue)
        → PassesTlvObjects (tlv_reader_over bytes) objects reader → IsMalformedTlvObject reader.rest → HasTlvFaultAt bytes reader.offset }
{}

/// The function that computes the objects of bytes agrees with the grammar, and goes on after the first of them.
pub fn law_decode_objects()
    ensures fills { (bytes : List ℕ) (objects : List ObjectValue)
        → SpellsTlvObjects bytes objects ↔ (decode_tlv_objects bytes ≡ record { objects = objects; rest = [] }) }
    ensures fault { (bytes : List ℕ) (offset : ℕ) → HasTlvFaultAt bytes offset
        ↔ (IsMalformedTlvObject (decode_tlv_objects bytes).rest × (offset + length (decode_tlv_objects bytes).rest ≡ length bytes)) }
    ensures whole { (bytes : List ℕ) (object : ObjectValue) (rest : List ℕ) → decode_tlv_object bytes ≡ Some (object, rest)
        → decode_tlv_objects bytes ≡ with_first_tlv_object object (decode_tlv_objects rest) }
    ensures none { (bytes : List ℕ) → decode_tlv_object bytes ≡ None → decode_tlv_objects bytes ≡ record { objects = []; rest = bytes } }
{}
