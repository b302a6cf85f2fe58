//! The literal names that are values (RFC 8259, section 3).
ghost use Rattle.std.specs.Prelude.{◌≡◌};
ghost use Rattle.json_text.specs.ValueOf.{value_of};
ghost use Rattle.json_text.specs.inner.ReaderStates.{literal_text, literal_tree};

use crate::tree::Json;

/// A literal name: `null`, `true` or `false`.
#[derive(Clone, Copy)]
pub(crate) enum Literal {
    Null,
    True,
    False,
}

impl Literal {
    /// The letters of the literal.
    pub(crate) fn text(self) -> &'static [u8]
        ensures { result.now ≡ literal_text self }
    {
        match self {
            Literal::Null => b"null",
            Literal::True => b"true",
            Literal::False => b"false",
        }
    }

    /// The value that the literal names.
    pub(crate) fn json(self) -> Json
        ensures { value_of result ≡ literal_tree self }
    {
        match self {
            Literal::Null => Json::Null,
            Literal::True => Json::Bool(true),
            Literal::False => Json::Bool(false),
        }
    }
}
