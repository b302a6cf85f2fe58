//! Laws of the definitions that the contracts cite. Each function does nothing: its contract is the law.
ghost use Rattle.std.specs.Prelude.{◌≡◌, ◌≤◌, ◌↔◌, ℕ, List, ◌++◌, length, Some};
ghost use Rattle.zvt_apdu.specs.Grammar.{ApduValue, BeginsWithApdu};
ghost use Rattle.zvt_msg.specs.declared.command.Command.{Command};
ghost use Rattle.zvt_msg.specs.CommandGrammar.{SpellsCommand};
ghost use Rattle.zvt_more.specs.declared.more.More.{More};
ghost use Rattle.zvt_more.specs.Grammar.{SpellsMore, HasMoreDigits, HasMoreSizes};
ghost use Rattle.zvt_more.specs.Decode.{decode_more};
ghost use Rattle.zvt_more.specs.Canonical.{more_apdu, canonical_more_command};
ghost use Rattle.zvt_more.specs.Example.{ExampleMoreCanonical, ExampleMoreRead, ExampleMoreRefused};

/// A refund, a reservation and a reservation's completion have one spelling each, and an APDU spells one of them. The
/// spelling is the one that is written, and the function that computes the command of an APDU agrees with the definition.
/// An APDU that spells one of them spells no command of `zvt_msg`.
pub fn law_more()
    ensures one_spelling { (a b : ApduValue) (more : More) → SpellsMore a more → SpellsMore b more → a ≡ b }
    ensures one_command { (apdu : ApduValue) (a b : More) → SpellsMore apdu a → SpellsMore apdu b → a ≡ b }
    ensures canonical { (apdu : ApduValue) (more : More)
        → SpellsMore apdu more ↔ (HasMoreDigits more × HasMoreSizes more × (apdu ≡ more_apdu more)) }
    ensures read { (apdu : ApduValue) (more : More) → (decode_more apdu ≡ Some more) ↔ SpellsMore apdu more }
    ensures apart { (apdu : ApduValue) (more : More) (command : Command) → SpellsMore apdu more → ¬ SpellsCommand apdu command }
{
    zvt_msg::law_commands();
}

/// What was written is read again as the same command, whatever bytes follow, and has at most 16 bytes.
pub fn law_read_again()
    ensures again { (more : More) (rest : List ℕ) → HasMoreDigits more → HasMoreSizes more
        → BeginsWithApdu (canonical_more_command more ++ rest) (more_apdu more) rest × (decode_more (more_apdu more) ≡ Some more) }
    ensures size { (more : More) → HasMoreSizes more → length (canonical_more_command more) ≤ 16 }
{
    zvt_apdu::law_read_again();
}

/// The examples: what is written of each command, what is read of it, and APDUs that spell none.
pub fn law_examples()
    ensures written { ExampleMoreCanonical }
    ensures read { ExampleMoreRead }
    ensures refused { ExampleMoreRefused }
{}
