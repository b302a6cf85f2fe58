//! Laws of texts, and of what is written.
ghost use Rattle.std.specs.Prelude.{◌≡◌, ℕ, List};
ghost use Rattle.json_text.specs.Tree.{Tree};
ghost use Rattle.json_text.specs.Grammar.{Spells};
ghost use Rattle.json_text.specs.Spellable.{IsSpellable};
ghost use Rattle.json_text.specs.Canonical.{canonical};

/// No text spells two trees.
pub fn one_tree_of_a_text()
    ensures { (v w : Tree) (b : List ℕ) → Spells v b → Spells w b → v ≡ w }
{}

/// No two trees that have texts have the same canonical spelling.
pub fn no_two_written_alike()
    ensures { (v w : Tree) (b c : List ℕ) → Spells v b → Spells w c → canonical v ≡ canonical w → v ≡ w }
{}

/// Exactly the spellable trees have a text, and what is written of such a tree is one of them.
pub fn spellable_trees_have_texts()
    ensures has { (v : Tree) → IsSpellable v → Spells v (canonical v) }
    ensures only { (v : Tree) (b : List ℕ) → Spells v b → IsSpellable v }
{}
