//! Laws of the definitions that the contracts cite. Each function does nothing: its contract is the law.
ghost use Rattle.std.specs.Prelude.{◌≡◌, ◌≢◌, ◌≤◌, ◌↔◌, ℕ, List, ◌++◌, length, sum_by, Result, Ok, Some};
ghost use Rattle.zvt_apdu.specs.Grammar.{ApduValue, BeginsWithApdu, longest_apdu_data};
ghost use Rattle.zvt_bmp.specs.declared.fields.Fields.{Fields};
ghost use Rattle.zvt_msg.specs.declared.fault.PtFault.{PtFault};
ghost use Rattle.zvt_msg.specs.declared.command.Command.{Command};
ghost use Rattle.zvt_msg.specs.BlockGrammar.{AreWholeObjects, AreBlockLines, most_block_lines};
ghost use Rattle.zvt_msg.specs.BlockDecode.{decode_block_lines};
ghost use Rattle.zvt_msg.specs.Example.{ExampleRead};
ghost use Rattle.zvt_msg.specs.Message.{MessageValue, Status, Other};
ghost use Rattle.zvt_msg.specs.Numbers.{NumbersFitFields};
ghost use Rattle.zvt_msg.specs.PrintedLines.{printed_lines};
ghost use Rattle.zvt_msg.specs.MessageGrammar.{SpellsPtMessageOrFault, SpellsPtMessage};
ghost use Rattle.zvt_msg.specs.MessageDecode.{decode_pt_message};
ghost use Rattle.zvt_msg.specs.MessageCanonical.{HasPtMessageForm, HasPtMessageSizes, canonical_pt_message, pt_message_read_again};
ghost use Rattle.zvt_msg.specs.CommandGrammar.{SpellsCommand, HasCommandDigits, HasCommandSizes};
ghost use Rattle.zvt_msg.specs.CommandDecode.{decode_command};
ghost use Rattle.zvt_msg.specs.CommandCanonical.{command_apdu, canonical_command};

/// An APDU spells one message or has one fault, and the function that computes it agrees with the definition.
pub fn law_decode_pt_message()
    ensures only { (apdu : ApduValue) (a b : Result MessageValue PtFault) → SpellsPtMessageOrFault apdu a → SpellsPtMessageOrFault apdu b → a ≡ b }
    ensures computes { (apdu : ApduValue) (result : Result MessageValue PtFault)
        → (decode_pt_message apdu ≡ result) ↔ SpellsPtMessageOrFault apdu result }
{}

/// What was read has the form that is written, where it is known: each number of a status has at most as many digits as its
/// field. So a status that was read can be written again, and so can a line or a block where it fits 512 bytes. What a
/// message prints is at most 400 lines, together of at most 12,000 bytes where its data have no more. The examples have the
/// greatest numbers, and blocks.
pub fn law_read_fits()
    ensures numbers { (apdu : ApduValue) (message : MessageValue) → decode_pt_message apdu ≡ Ok message → NumbersFitFields message }
    ensures sizes { (apdu : ApduValue) (message : MessageValue) → decode_pt_message apdu ≡ Ok message → HasPtMessageSizes message }
    ensures form { (apdu : ApduValue) (message : MessageValue) → decode_pt_message apdu ≡ Ok message → message ≢ Other
        → HasPtMessageForm message }
    ensures status_size { (apdu : ApduValue) (fields : Fields) → decode_pt_message apdu ≡ Ok (Status fields)
        → length (canonical_pt_message (Status fields)) ≤ 22 }
    ensures printed { (apdu : ApduValue) (message : MessageValue) → length apdu.body ≤ longest_apdu_data → decode_pt_message apdu ≡ Ok message
        → (length (printed_lines message) ≤ most_block_lines)
        × (sum_by (λ line. length line) (printed_lines message) ≤ longest_apdu_data) }
    ensures examples { ExampleRead }
{
    zvt_bmp::law_fields_fit();
}

/// A block has one list of lines, and the function that computes them agrees with the definition. They are at most 400, and
/// have together at most the block's bytes.
pub fn law_decode_block_lines()
    ensures only { (block : List ℕ) (a b : List (List ℕ)) → AreBlockLines block a → AreBlockLines block b → a ≡ b }
    ensures lines { (block : List ℕ) (lines : List (List ℕ)) → AreWholeObjects block
        → (decode_block_lines block ≡ lines) ↔ AreBlockLines block lines }
    ensures count { (block : List ℕ) → length (decode_block_lines block) ≤ most_block_lines }
    ensures size { (block : List ℕ) → sum_by (λ line. length line) (decode_block_lines block) ≤ length block }
{}

/// A command has one spelling, and an APDU spells one command. The spelling is the one that is written, and the function
/// that computes the command of an APDU agrees with the definition.
pub fn law_commands()
    ensures one_spelling { (a b : ApduValue) (command : Command) → SpellsCommand a command → SpellsCommand b command → a ≡ b }
    ensures one_command { (apdu : ApduValue) (a b : Command) → SpellsCommand apdu a → SpellsCommand apdu b → a ≡ b }
    ensures canonical { (apdu : ApduValue) (command : Command)
        → SpellsCommand apdu command ↔ (HasCommandDigits command × HasCommandSizes command × (apdu ≡ command_apdu command)) }
    ensures read { (apdu : ApduValue) (command : Command) → (decode_command apdu ≡ Some command) ↔ SpellsCommand apdu command }
{}

/// A command or a message that was written is read again as the same one, whatever bytes follow; a status has the
/// written length as the offset of its tail.
pub fn law_read_again()
    ensures commands { (command : Command) (rest : List ℕ) → HasCommandDigits command → HasCommandSizes command
        → BeginsWithApdu (canonical_command command ++ rest) (command_apdu command) rest × SpellsCommand (command_apdu command) command }
    ensures messages { (message : MessageValue) (rest : List ℕ)
        → HasPtMessageForm message → HasPtMessageSizes message → length (canonical_pt_message message) ≤ 512
        → (apdu : ApduValue) × BeginsWithApdu (canonical_pt_message message ++ rest) apdu rest
        × SpellsPtMessage apdu (pt_message_read_again message) }
{
    zvt_apdu::law_read_again();
    zvt_tlv::law_read_again();
    zvt_bmp::law_read_again();
}
