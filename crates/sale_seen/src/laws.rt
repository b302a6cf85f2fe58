//! Laws of what is read of the replies that are written.
ghost use Rattle.std.specs.Prelude.{◌≡◌, ℕ, List, All, Some};
ghost use Rattle.json_text.specs.Tree.{Tree};
ghost use Rattle.sale_values.specs.declared.header.Header.{Header};
ghost use Rattle.sale_msg.specs.Form.{IsLetter};
ghost use Rattle.sale_msg.specs.Path.{tree_at};
ghost use Rattle.sale_reply.specs.Limits.{IsWithinLimits};
ghost use Rattle.sale_reply.specs.Reply.{tree_of};
ghost use Rattle.sale_reply.specs.declared.reply.SaleReply.{SaleReply};
ghost use Rattle.sale_seen.specs.Fault.{LacksResult, result_in, result_path};
ghost use Rattle.sale_seen.specs.Grammar.{ReadsReply, ReadReply};
ghost use Rattle.sale_seen.specs.Expected.{Suits, display_header_of, expected_reply};

/// What a till is expected to read of a reply is read of the reply's tree.
pub fn law_reply_read()
    ensures { (reply : SaleReply) (seen : ReadReply) → IsWithinLimits reply → Suits reply → expected_reply reply ≡ Some seen → ReadsReply (tree_of reply) seen }
{}

/// The reply to a Display has its results by output, and none of its own.
pub fn law_display()
    ensures { (reply : SaleReply) (header : Header) → IsWithinLimits reply → Suits reply → display_header_of reply ≡ Some header
        → LacksResult (tree_of reply) header (result_path header.category) }
{}

/// The path in a fault leads to the reply's result.
pub fn law_path()
    ensures { (category : List ℕ) (holder : Tree) → All IsLetter category → tree_at (result_path category) holder ≡ result_in category holder }
{}
