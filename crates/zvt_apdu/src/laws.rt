//! Laws of the definitions that the contracts cite. Each function does nothing: its contract is the law.
ghost use Rattle.std.specs.Prelude.{◌≡◌, ◌<◌, ◌≤◌, ◌↔◌, ℕ, List, [], ◌++◌, length};
ghost use Rattle.zvt_apdu.specs.Grammar.{ApduValue, longest_apdu_data, SpellsApdu, BeginsWithApdu, IsProperApduPrefix, BeginsTooLongApdu, canonical_apdu};
ghost use Rattle.zvt_apdu.specs.Decode.{DecodedApdu, decode_apdu};
ghost use Rattle.zvt_apdu.specs.DecodeStream.{DecodedApdus, with_first_apdu, decode_apdus};
ghost use Rattle.zvt_apdu.specs.Stream.{BeginsWithApdus, IsEndOfApdus, SpellsApdus, ApduStep, TakesApdu};
ghost use Rattle.gw_bytes.specs.Bytes.{AreBytes};
ghost use Rattle.gw_bytes.specs.Chunks.{Steps, fed, given};

/// No APDU is a proper prefix of another: where the same bytes begin with two, these are one, and the same follows.
pub fn law_no_proper_prefix()
    ensures { (a b x y : List ℕ) (m n : ApduValue) → SpellsApdu a m → SpellsApdu b n → a ++ x ≡ b ++ y
        → (a ≡ b) × (m ≡ n) × (x ≡ y) }
{}

/// What is written is an APDU, and is read again as the same one, whatever bytes follow.
pub fn law_read_again()
    ensures spelled { (apdu : ApduValue) → length apdu.body ≤ longest_apdu_data
        → SpellsApdu (canonical_apdu apdu.class apdu.instr apdu.body) apdu }
    ensures read { (apdu : ApduValue) (rest : List ℕ) → length apdu.body ≤ longest_apdu_data
        → decode_apdu (canonical_apdu apdu.class apdu.instr apdu.body ++ rest) ≡ DecodedApdu.Whole apdu rest }
{}

/// Whatever the chunks, and whenever `next` is called between them, the APDUs given are those of all the bytes fed and
/// no others.
pub fn law_any_chunks()
    // What was given and what waits are all that was fed.
    ensures chunks { (steps : List ApduStep) (waiting : List ℕ) → Steps TakesApdu [] steps waiting
        → BeginsWithApdus (fed steps) (given steps) waiting }

    // So where no more can be given, exactly the APDUs of all that was fed were given.
    ensures exactly { (steps : List ApduStep) (waiting : List ℕ) → Steps TakesApdu [] steps waiting → IsEndOfApdus waiting
        → SpellsApdus (fed steps) (given steps) waiting }

    // Bytes are read in one way.
    ensures only { (bytes r s : List ℕ) (xs ys : List ApduValue) → SpellsApdus bytes xs r → SpellsApdus bytes ys s
        → (xs ≡ ys) × (r ≡ s) }

    // So two readers that were fed the same bytes, and have no more to give, gave the same.
    ensures same { (steps others : List ApduStep) (waiting left : List ℕ) → Steps TakesApdu [] steps waiting → Steps TakesApdu [] others left
        → fed steps ≡ fed others → IsEndOfApdus waiting → IsEndOfApdus left → (given steps ≡ given others) × (waiting ≡ left) }
{}

/// An APDU takes bytes: what follows it is shorter.
pub fn law_shorter()
    ensures { (bytes : List ℕ) (apdu : ApduValue) (rest : List ℕ) → BeginsWithApdu bytes apdu rest
        → length rest < length bytes }
{}

/// The function that computes the APDU that bytes begin with agrees with the grammar.
pub fn law_decode_apdu()
    ensures whole { (bytes : List ℕ) (apdu : ApduValue) (rest : List ℕ) → AreBytes bytes
        → (decode_apdu bytes ≡ DecodedApdu.Whole apdu rest) ↔ BeginsWithApdu bytes apdu rest }
    ensures incomplete { (bytes : List ℕ) → AreBytes bytes → (decode_apdu bytes ≡ DecodedApdu.Incomplete) ↔ IsProperApduPrefix bytes }
    ensures too_long { (bytes : List ℕ) (n : ℕ) → AreBytes bytes
        → (decode_apdu bytes ≡ DecodedApdu.TooLong n) ↔ BeginsTooLongApdu bytes n }
{}

/// The function that computes all the APDUs of bytes agrees with the grammar, and goes on after the first of them.
pub fn law_decode_apdus()
    ensures is { (bytes : List ℕ) → AreBytes bytes → SpellsApdus bytes (decode_apdus bytes).apdus (decode_apdus bytes).rest }
    ensures whole { (bytes : List ℕ) (apdu : ApduValue) (rest : List ℕ) → decode_apdu bytes ≡ DecodedApdu.Whole apdu rest
        → decode_apdus bytes ≡ with_first_apdu apdu (decode_apdus rest) }
    ensures incomplete { (bytes : List ℕ) → decode_apdu bytes ≡ DecodedApdu.Incomplete
        → decode_apdus bytes ≡ record { apdus = []; rest = bytes } }
    ensures too_long { (bytes : List ℕ) (n : ℕ) → decode_apdu bytes ≡ DecodedApdu.TooLong n
        → decode_apdus bytes ≡ record { apdus = []; rest = bytes } }
{}
