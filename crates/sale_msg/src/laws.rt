//! Laws of messages.
ghost use Rattle.std.specs.Prelude.{◌≡◌, ℕ, List};
ghost use Rattle.json_text.specs.Canonical.{canonical};
ghost use Rattle.json_text.specs.Grammar.{Spells};
ghost use Rattle.json_text.specs.Tree.{Tree};
ghost use Rattle.sale_values.specs.declared.fault.SaleFault.{SaleFault};
ghost use Rattle.sale_values.specs.declared.header.Header.{Header};
ghost use Rattle.sale_values.specs.declared.request.Incoming.{Incoming};
ghost use Rattle.sale_values.specs.declared.request.SaleRequest.{SaleRequest};
ghost use Rattle.sale_msg.specs.Canonical.{request_tree};
ghost use Rattle.sale_msg.specs.Grammar.{IsSaleFault, IsHeaded, IsTillMessage, LacksHeader};
ghost use Rattle.sale_msg.specs.declared.table.Envelope.{Envelope};

use json_text::spellable_trees_have_texts;

/// A tree is one message at most, has one fault at most, and not both.
pub fn law_one_reading()
    ensures message { (tree : Tree) (m n : Incoming) → IsTillMessage tree m → IsTillMessage tree n → m ≡ n }
    ensures fault { (tree : Tree) (f g : SaleFault) → IsSaleFault tree f → IsSaleFault tree g → f ≡ g }
    ensures not_both { (tree : Tree) (m : Incoming) (f : SaleFault) → IsTillMessage tree m → IsSaleFault tree f → ⊥ }
{}

/// A tree has one header at most, one path at which none was read at most, and not both.
pub fn law_one_header()
    ensures header { (tree : Tree) (d e : Envelope) (b c : Tree) (g h : Header) → IsHeaded tree d b g → IsHeaded tree e c h → (b ≡ c) × (g ≡ h) }
    ensures path { (tree : Tree) (p q : List ℕ) → LacksHeader tree p → LacksHeader tree q → p ≡ q }
    ensures not_both { (tree : Tree) (e : Envelope) (body : Tree) (header : Header) (path : List ℕ) → IsHeaded tree e body header → LacksHeader tree path → ⊥ }
{}

/// What is written of a request that some tree is, is this request again; and where some text spells the tree, what is
/// written is a text too, so that it is read again.
pub fn law_written_again()
    ensures text { (tree : Tree) (text : List ℕ) (header : Header) (request : SaleRequest) → Spells tree text
        → IsTillMessage tree (Incoming.Request header request)
        → Spells (request_tree header request) (canonical (request_tree header request)) }
    ensures message { (tree : Tree) (header : Header) (request : SaleRequest) → IsTillMessage tree (Incoming.Request header request)
        → IsTillMessage (request_tree header request) (Incoming.Request header request) }
{
    spellable_trees_have_texts();
}
