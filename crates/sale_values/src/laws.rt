//! Laws of the parts of messages, written as JSON (RFC 8259).
ghost use Rattle.std.specs.Prelude.{◌≡◌, ℕ, ◌^◌, ◌<◌, List, Some};
ghost use Rattle.std.specs.Str.{IsUtf8};
ghost use Rattle.gw_base.specs.Amount.{minor_units};
ghost use Rattle.gw_base.specs.Ident.{IsIdent};
ghost use Rattle.gw_base.specs.Limits.{IsAmount};
ghost use Rattle.json_text.specs.Number.{IsNumberText};
ghost use Rattle.json_text.specs.Spellable.{IsSpellableAt};
ghost use Rattle.json_text.specs.Tree.{object};
ghost use Rattle.sale_values.specs.CanonicalHeader.{header_members};
ghost use Rattle.sale_values.specs.HeaderTexts.{HasUtf8Texts};
ghost use Rattle.sale_values.specs.Money.{money_text};
ghost use Rattle.sale_values.specs.Names.{class_name, kind_name, period_name};
ghost use Rattle.sale_values.specs.declared.header.Header.{Header};
ghost use Rattle.sale_values.specs.declared.names.Class.{Class};
ghost use Rattle.sale_values.specs.declared.names.Kind.{Kind};
ghost use Rattle.sale_values.specs.declared.names.Period.{Period};

/// Money of 64 bits is written as a number, no two sums alike, and an amount so that it is read again.
pub fn law_money()
    ensures number { (n : ℕ) → n < 2 ^ 64 → IsNumberText (money_text n) }
    ensures amount { (n : ℕ) → IsAmount n → minor_units (money_text n) ≡ Some n }
    ensures one { (m n : ℕ) → m < 2 ^ 64 → n < 2 ^ 64 → money_text m ≡ money_text n → m ≡ n }
{}

/// The bytes of identifiers and of the names of the closed lists are UTF-8.
pub fn law_texts()
    ensures ident { (most : ℕ) (text : List ℕ) → IsIdent most text → IsUtf8 text }
    ensures class { (c : Class) → IsUtf8 (class_name c) }
    ensures message_type { (k : Kind) → IsUtf8 (kind_name k) }
    ensures period { (p : Period) → IsUtf8 (period_name p) }
{}

/// A header whose texts are UTF-8 has a text, wherever so many arrays and objects may be open.
pub fn law_header()
    ensures { (d : ℕ) (header : Header) → HasUtf8Texts header → d < 32 → IsSpellableAt d (object (header_members header)) }
{}
