//! The text of a string, a name or a number. A few plain characters lie in the value itself, without an allocation.
ghost use Rattle.std.specs.Prelude.{◌≡◌, IfOk, string_bytes};
ghost use Rattle.json_text.specs.inner.ContentBytes.{content_bytes};
ghost use Rattle.json_text.specs.inner.ReaderStates.{ArePlain};

use arrayvec::ArrayString;
use std::alloc::{AllocError, Global};
use std::str;

/// The most bytes that lie in the value itself.
const MOST_INLINE: usize = 16;

/// A text in UTF-8.
#[derive(Drop)]
pub(crate) enum Content {
    /// A few bytes; with its length it is as large as a `String`.
    Inline(ArrayString<MOST_INLINE>),
    /// Any text, in memory of its own.
    Long(String),
}

impl Content {
    /// A copy of plain characters.
    pub(crate) fn of_plain(alloc: Global, bytes: &[u8]) -> Result<Content, AllocError>
        requires { ArePlain bytes.now }
        ensures { IfOk result (λ content. content_bytes content ≡ bytes.now) }
    {
        let text = plain_str(bytes);
        if text.len() > MOST_INLINE {
            return Ok(Content::Long(String::from_str(alloc, text)?));
        }
        let mut inline = ArrayString::new();
        inline.push_str(text);
        Ok(Content::Inline(inline))
    }

    /// The text.
    #[inline]
    pub(crate) fn as_str(&self) -> &str
        ensures { result.now ≡ content_bytes self.now }
    {
        match self {
            Content::Inline(text) => text.as_str(),
            Content::Long(text) => text.as_str(),
        }
    }
}

/// Plain characters as text.
#[inline]
pub(crate) fn plain_str(bytes: &[u8]) -> &str
    requires { ArePlain bytes.now }
    ensures { result.now ≡ bytes.now }
{
    // They are ASCII, so they are text, and nothing has to be tested.
    unsafe { str::from_utf8_unchecked(bytes) }
}
