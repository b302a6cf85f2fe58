//! JSON values.
ghost use Rattle.std.specs.Prelude.{◌≡◌, map, option_map, option_copied, string_bytes, is_some, IsNone, IfOk, ◌↔◌};
ghost use Rattle.json_text.specs.Tree.{get_of, member_names_of, member_of, boolean_of, numeral_of, string_of, array_of, members_of};
ghost use Rattle.json_text.specs.Grammar.{IsNew};
ghost use Rattle.json_text.specs.ValueOf.{value_of, members_value};
ghost use Rattle.json_text.specs.inner.ReaderStates.{ArePlain};

use crate::content::Content;
use std::alloc::{AllocError, Global};
use std::marker::Model;

/// The text of a string or of a member's name, in UTF-8, its escapes decoded.
#[derive(Drop)]
pub struct Chars {
    text: Content,
}

impl Model for Chars {
    ghost use Rattle.std.specs.Prelude.{List, ℕ};
    ghost use Rattle.json_text.specs.inner.ContentBytes.{content_bytes};

    ghost Value = { List ℕ };

    ghost view = { λ c. content_bytes c.text };
}

impl Chars {
    pub fn new(text: String) -> Chars
        ensures { result ≡ string_bytes text }
    {
        Chars {
            text: Content::Long(text),
        }
    }

    /// A copy of plain characters.
    pub(crate) fn of_plain(alloc: Global, bytes: &[u8]) -> Result<Chars, AllocError>
        requires { ArePlain bytes.now }
        ensures { IfOk result (λ chars. chars ≡ bytes.now) }
    {
        let text = Content::of_plain(alloc, bytes)?;
        Ok(Chars { text })
    }

    #[inline]
    pub fn as_bytes(&self) -> &[u8]
        ensures { result.now ≡ self.now }
    {
        self.text.as_str().as_bytes()
    }

    #[inline]
    pub fn as_str(&self) -> &str
        ensures { result.now ≡ self.now }
    {
        self.text.as_str()
    }
}

/// The text of a number, as it was read.
#[derive(Drop)]
pub struct Numeral {
    text: Content,
}

impl Model for Numeral {
    ghost use Rattle.std.specs.Prelude.{List, ℕ};
    ghost use Rattle.json_text.specs.inner.ContentBytes.{content_bytes};

    ghost Value = { List ℕ };

    ghost view = { λ n. content_bytes n.text };
}

impl Numeral {
    /// A copy of plain characters.
    pub(crate) fn of_plain(alloc: Global, bytes: &[u8]) -> Result<Numeral, AllocError>
        requires { ArePlain bytes.now }
        ensures { IfOk result (λ numeral. numeral ≡ bytes.now) }
    {
        let text = Content::of_plain(alloc, bytes)?;
        Ok(Numeral { text })
    }

    #[inline]
    pub fn as_bytes(&self) -> &[u8]
        ensures { result.now ≡ self.now }
    {
        self.text.as_str().as_bytes()
    }
}

/// A JSON value. The members of an object are in the order of the text.
#[derive(Drop)]
pub enum Json {
    Null,
    Bool(bool),
    Number(Numeral),
    Str(Chars),
    List(Vec<Json>),
    Object(Vec<(Chars, Json)>),
}

impl Json {
    /// The value of the member of this name, the first where a value made by hand has several.
    pub fn get(&self, name: &[u8]) -> Option<&Json>
        ensures value { option_map (λ v. value_of v.now) result ≡ get_of name.now (value_of self.now) }
        ensures absent { IsNone result ↔ IsNew name.now (member_names_of (value_of self.now)) }
    {
        self.member(name)
    }

    /// The value of the member of this name; `None` where this is no object.
    fn member(&self, name: &[u8]) -> Option<&Json>
        ensures { option_map (λ v. value_of v.now) result ≡ get_of name.now (value_of self.now) }
    {
        match self {
            Json::Object(members) => find(members, name),
            _ => None,
        }
    }

    /// The value of `true` and `false`.
    pub fn as_bool(&self) -> Option<bool>
        ensures { result ≡ boolean_of (value_of self.now) }
    {
        match self {
            Json::Bool(value) => Some(*value),
            _ => None,
        }
    }

    /// The text, where this is a number.
    pub fn as_number(&self) -> Option<&Numeral>
        ensures { option_copied result ≡ numeral_of (value_of self.now) }
    {
        match self {
            Json::Number(text) => Some(text),
            _ => None,
        }
    }

    /// The text, where this is a string.
    pub fn as_str(&self) -> Option<&Chars>
        ensures { option_copied result ≡ string_of (value_of self.now) }
    {
        match self {
            Json::Str(text) => Some(text),
            _ => None,
        }
    }

    /// The elements, where this is an array.
    pub fn as_list(&self) -> Option<&[Json]>
        ensures { option_map (λ elements. map value_of elements.now) result ≡ array_of (value_of self.now) }
    {
        match self {
            Json::List(elements) => Some(elements),
            _ => None,
        }
    }

    /// Whether this is an object.
    pub fn is_object(&self) -> bool
        ensures { result ≡ is_some (members_of (value_of self.now)) }
    {
        match self {
            Json::Object(_) => true,
            _ => false,
        }
    }
}

/// The value of the first member of this name.
fn find<'a>(members: &'a [(Chars, Json)], name: &[u8]) -> Option<&'a Json>
    ensures { option_map (λ v. value_of v.now) result ≡ member_of name.now (members_value members.now) }
{
    for (own, value) in members {
        if own.as_bytes() == name {
            return Some(value);
        }
    }
    None
}
