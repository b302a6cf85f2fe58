//! The canonical spelling of a tree.
ghost use Rattle.std.specs.Prelude.{◌≡◌, ◌==◌, ℕ, List, [], ◌∷◌, ◌++◌, ◌<◌, if◌then◌else◌, map, flat_map, OnOk, OnErr};
ghost use Rattle.gw_bytes.specs.Bytes.{IsPrefix};
ghost use Rattle.json_text.specs.Tree.{Tree, array, no_elements, object};
ghost use Rattle.json_text.specs.ValueOf.{value_of, elements_onto, members_value};
ghost use Rattle.json_text.specs.Grammar.{Spells};
ghost use Rattle.json_text.specs.Canonical.{AppendsPrefix, canonical, canonical_string, canonical_byte};

use crate::tree::{Chars, Json};
use arrayvec::ArrayVec;
use gw_bytes::lower_hex_digit;
use std::alloc::{AllocError, Global};

/// Appends the canonical spelling of the tree: no white space, members in their order.
///
/// It writes straight into `out`, which grows by its own allocator: `_alloc` only marks that the call takes memory. It takes
/// as much stack as the tree is deep; a tree that [`read`](crate::read) gave is at most 32 deep.
pub fn write(_alloc: Global, tree: &Json, out: &mut Vec<u8>) -> Result<(), AllocError>
    ensures ok { OnOk result (out.new.items ≡ out.old.items ++ canonical (value_of tree.now)) }
    ensures err { OnErr result (out.new.items ≡ out.old.items) }
{
    let before = out.len();
    match write_value(tree, out) {
        Ok(()) => Ok(()),
        Err(error) => {
            // Memory was refused halfway: the part of the tree that there was room for is taken away again.
            out.truncate(before);
            Err(error)
        }
    }
}

/// The canonical spelling of a tree that has a text is a text of it, so [`read`](crate::read) returns this tree for it.
pub fn written_is_read_again()
    ensures { (v : Tree) (b : List ℕ) → Spells v b → Spells v (canonical v) }
{}

/// Appends a value. Where memory is refused, the part of it that there was room for stays.
#[cycle(values)]
fn write_value(tree: &Json, out: &mut Vec<u8>) -> Result<(), AllocError>
    ensures ok { OnOk result (out.new.items ≡ out.old.items ++ canonical (value_of tree.now)) }
    ensures grows { IsPrefix out.old.items out.new.items }
{
    match tree {
        Json::Null => out.extend_from_slice(b"null"),
        Json::Bool(true) => out.extend_from_slice(b"true"),
        Json::Bool(false) => out.extend_from_slice(b"false"),
        Json::Number(text) => out.extend_from_slice(text.as_bytes()),
        Json::Str(text) => write_text(text.as_bytes(), out),
        Json::List(elements) => write_array(elements, out),
        Json::Object(members) => write_object(members, out),
    }
}

/// Appends an array of these elements.
#[cycle(values)]
fn write_array(elements: &[Json], out: &mut Vec<u8>) -> Result<(), AllocError>
    ensures ok { OnOk result (out.new.items ≡ out.old.items ++ canonical (array (elements_onto (map value_of elements.now) no_elements))) }
    ensures grows { IsPrefix out.old.items out.new.items }
{
    out.extend_from_slice(b"[")?;
    for (i, element) in elements.iter().enumerate() {
        write_comma(i, out)?;
        write_value(element, out)?;
    }
    out.extend_from_slice(b"]")
}

/// Appends an object of these members.
#[cycle(values)]
fn write_object(members: &[(Chars, Json)], out: &mut Vec<u8>) -> Result<(), AllocError>
    ensures ok { OnOk result (out.new.items ≡ out.old.items ++ canonical (object (members_value members.now))) }
    ensures grows { IsPrefix out.old.items out.new.items }
{
    out.extend_from_slice(b"{")?;
    for (i, (name, value)) in members.iter().enumerate() {
        write_comma(i, out)?;
        write_member(name, value, out)?;
    }
    out.extend_from_slice(b"}")
}

/// Appends the comma before the element or member of this index; none comes before the first.
#[inline]
fn write_comma(index: usize, out: &mut Vec<u8>) -> Result<(), AllocError>
    ensures ok { OnOk result (out.new.items ≡ out.old.items ++ (if index == 0 then [] else 44 ∷ [])) }
    ensures grows { IsPrefix out.old.items out.new.items }
{
    if index == 0 {
        return Ok(());
    }
    out.extend_from_slice(b",")
}

/// Appends a member: its name, a colon and its value.
#[cycle(values)]
fn write_member(name: &Chars, value: &Json, out: &mut Vec<u8>) -> Result<(), AllocError>
    ensures ok { OnOk result (out.new.items ≡ out.old.items ++ (canonical_string name.now ++ (58 ∷ canonical (value_of value.now)))) }
    ensures grows { IsPrefix out.old.items out.new.items }
{
    write_text(name.as_bytes(), out)?;
    out.extend_from_slice(b":")?;
    write_value(value, out)
}

/// Appends the canonical spelling of a string, with its quotation marks; nothing where there is no memory.
pub fn write_text(text: &[u8], out: &mut Vec<u8>) -> Result<(), AllocError>
    ensures ok { OnOk result (out.new.items ≡ out.old.items ++ canonical_string text.now) }
    ensures err { OnErr result (out.new.items ≡ out.old.items) }
{
    let start = out.len();
    match append_text(text, out) {
        Ok(()) => Ok(()),
        Err(error) => {
            out.truncate(start);
            Err(error)
        }
    }
}

/// Appends the canonical spelling of a string; where memory is refused, the part of it that there was room for stays.
fn append_text(text: &[u8], out: &mut Vec<u8>) -> Result<(), AllocError>
    ensures ok { OnOk result (out.new.items ≡ out.old.items ++ canonical_string text.now) }
    ensures err { OnErr result (AppendsPrefix (canonical_string text.now) out.old.items out.new.items) }
{
    out.extend_from_slice(b"\"")?;
    for byte in text {
        write_byte(*byte, out)?;
    }
    out.extend_from_slice(b"\"")
}

/// The spelling of one byte of a string: `"`, `\` and control characters are escaped, no other byte is (RFC 8259, section 7).
pub fn escaped(byte: u8) -> ArrayVec<u8, 6>
    ensures spelling { result.items ≡ canonical_byte byte }
{
    let mut spelling = ArrayVec::new();
    if byte == b'"' || byte == b'\\' {
        spelling.push(b'\\');
        spelling.push(byte);
    } else if byte < 32 {
        let (high, low) = (lower_hex_digit(byte / 16), lower_hex_digit(byte % 16));
        spelling
            .try_extend_from_slice(&[b'\\', b'u', b'0', b'0', high, low])
            .unwrap();
    } else {
        spelling.push(byte);
    }
    spelling
}

/// Appends the spelling of one byte of a string.
fn write_byte(byte: u8, out: &mut Vec<u8>) -> Result<(), AllocError>
    ensures ok { OnOk result (out.new.items ≡ out.old.items ++ canonical_byte byte) }
    ensures err { OnErr result (out.new.items ≡ out.old.items) }
{
    out.extend_from_slice(escaped(byte).as_slice())
}
