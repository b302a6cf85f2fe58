//! Laws of the definitions that the contracts cite. Each function does nothing: its contract is the law.
ghost use Rattle.std.specs.Prelude.{◌≡◌, ℕ, ◌≤◌, ◌++◌, ◌||◌, ◌∷◌, [], List, length, drop, Some, IsTrue};
ghost use Rattle.gw_bytes.specs.Bytes.{IsPrefix};
ghost use Rattle.zvt_apdu.specs.Grammar.{ApduValue};
ghost use Rattle.zvt_msg.specs.CommandDecode.{decode_command};
ghost use Rattle.zvt_msg.specs.declared.command.Command.{Command};
ghost use Rattle.zvt_talk.specs.declared.meaning.Heard.{Heard};
ghost use Rattle.zvt_talk.specs.Dialogue.{Dialogue, dialogue_kind_of};
ghost use Rattle.zvt_talk.specs.Came.{Came, messages};
ghost use Rattle.zvt_talk.specs.Talk.{end_of};
ghost use Rattle.pt_core.specs.Book.{all_fit, last_trace};
ghost use Rattle.pt_core.specs.Table.{entries_of, messages_of};
ghost use Rattle.pt_core.specs.Ends.{IsTrueEnd};
ghost use Rattle.pt_core.specs.Example.{ExampleMet, ExampleBook, ExampleLastTrace, ExampleEnd, ExampleHearing, ExampleSince, ExampleSharedCause};
ghost use Rattle.pt_core.specs.Exchange.{Exchange, AreOnOneLink, HearsSent, IsHonestForConnection, sent_first, heard_on_link, met_of};
ghost use Rattle.pt_core.specs.Serving.{heard_by_terminal, next_terminal};
ghost use Rattle.pt_core.specs.History.{Setting, Met, NewLink, Chunk, sent_on_link, book_after, book_of, has_cut, reaction_after, requests, terminal_after};
ghost use Rattle.pt_core.specs.Honest.{AreEntriesNumbered, Books, BookGrows};

use zvt_apdu::law_decode_apdus;
use zvt_msg::{law_commands, law_decode_pt_message, law_read_again};

/// What bytes and a new link do to what a terminal keeps is what its history says.
pub fn law_met()
    ensures fresh { (setting : Setting) → terminal_after setting []
        ≡ record { account = record { none = setting.none; plays = setting.plays; book = [] }; connection = Some [] } }
    ensures bytes { (setting : Setting) (met : List Met) (bytes : List ℕ)
        → next_terminal (terminal_after setting met) bytes ≡ terminal_after setting (Chunk bytes ∷ met) }
    ensures sent { (setting : Setting) (met : List Met) (bytes : List ℕ)
        → sent_on_link setting (Chunk bytes ∷ met) ≡ sent_on_link setting met
        ++ (heard_by_terminal (terminal_after setting met) (terminal_after setting met).connection bytes).bytes }
    ensures cut { (setting : Setting) (met : List Met) (bytes : List ℕ)
        → has_cut setting (Chunk bytes ∷ met)
        ≡ (has_cut setting met || (heard_by_terminal (terminal_after setting met) (terminal_after setting met).connection bytes).cut) }
    ensures link { (setting : Setting) (met : List Met)
        → record (terminal_after setting met) { connection = Some [] } ≡ terminal_after setting (NewLink ∷ met) }

    // Bytes in two chunks do the same as at once.
    ensures chunks { (setting : Setting) (met : List Met) (first second : List ℕ)
        → terminal_after setting (Chunk second ∷ Chunk first ∷ met) ≡ terminal_after setting (Chunk (first ++ second) ∷ met) }
    ensures chunks_sent { (setting : Setting) (met : List Met) (first second : List ℕ)
        → sent_on_link setting (Chunk second ∷ Chunk first ∷ met) ≡ sent_on_link setting (Chunk (first ++ second) ∷ met) }
{
    law_decode_apdus();
}

/// The book is honest for the connection, whatever is met: each request, heard whole, books nothing or the one entry
/// that it causes; a new link books nothing of what an earlier one carried; nothing is taken back; the numbers rise from
/// 1 to at most 999,999; and each entry fits a status.
pub fn law_book()
    ensures caused { (setting : Setting) (before : List ApduValue) (apdu : ApduValue)
        → Books (book_of setting before) (decode_command apdu) (entries_of (reaction_after setting before apdu)) }
    ensures link { (setting : Setting) (met : List Met)
        → book_after setting (NewLink ∷ met) ≡ book_after setting met }
    ensures grows { (setting : Setting) (met : List Met) (what : Met) → BookGrows setting met what }
    ensures numbers { (setting : Setting) (met : List Met) → AreEntriesNumbered 1 (book_after setting met) }
    ensures few { (setting : Setting) (met : List Met) → length (book_after setting met) ≤ last_trace }
    ensures fit { (setting : Setting) (met : List Met) → IsTrue (all_fit (book_after setting met)) }
{
    law_commands();
    law_met();
}

/// What a terminal sends is true of its book. Where the messages of a command's dialogue are the first of those that are
/// sent for it, at any moments and with any stops wished between them, the dialogue ends with nothing that its book
/// denies.
pub fn law_ends()
    ensures { (setting : Setting) (before : List ApduValue) (apdu : ApduValue) (command : Command) (dialogue : Dialogue)
        (came : List Came) (end : Heard) → decode_command apdu ≡ Some command → dialogue_kind_of command ≡ Some dialogue.dialogue_kind
        → IsPrefix (messages came) (messages_of (reaction_after setting before apdu)) → end_of dialogue came ≡ Some end
        → IsTrueEnd (book_of setting before) (entries_of (reaction_after setting before apdu)) end }
{}

/// The book with its places is honest for the connection, whatever the gateway links, sends and hears, in whatever chunks,
/// where each time what it has heard on the link is a prefix of what the terminal had sent on it: each entry is caused
/// by the sending that completes its command, and has its place right after that; two entries have one cause only where a
/// sending completes several requests; the numbers rise; each entry fits a status; and each end of a dialogue is true of the
/// entries that were in the book before the hearing that brings it.
pub fn law_honest()
    ensures { (setting : Setting) (exchanges : List Exchange) → HearsSent setting exchanges → IsHonestForConnection setting exchanges }
{
    law_decode_apdus();
    law_decode_pt_message();
    law_read_again();
    law_commands();
    zvt_talk::law_ends();
    law_met();
    law_book();
}

/// Where all that was sent on the link had been heard before a command was sent, what is heard after what was sent for the
/// requests before it is what is heard since.
pub fn law_all_heard()
    ensures { (setting : Setting) (after before : List Exchange) → AreOnOneLink after → heard_on_link before ≡ sent_on_link setting (met_of before)
        → drop (length (sent_first setting (after ++ before) (requests (met_of before)))) (heard_on_link (after ++ before)) ≡ heard_on_link after }
{}

/// Examples of the laws, which are computed: what a terminal keeps and sends, what it books and refuses, its last trace number,
/// a payment that is heard in two parts, what is heard of the next one, and one sending that is the cause of two entries.
pub fn law_examples()
    ensures met { ExampleMet }
    ensures book { ExampleBook }
    ensures last_trace { ExampleLastTrace }
    ensures end { ExampleEnd }
    ensures hearing { ExampleHearing }
    ensures since { ExampleSince }
    ensures shared_cause { ExampleSharedCause }
{}
