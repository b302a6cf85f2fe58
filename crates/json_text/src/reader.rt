//! The reader: a function for each kind of value, over one offset that goes on through the text.
ghost use Rattle.std.specs.Prelude.{◌≡◌, ◌+◌, ◌<◌, ◌≤◌, [], length, map, IfErr, IfOk, OnOk};
ghost use Rattle.json_text.specs.Tree.{Tree, array, no_elements, object};
ghost use Rattle.json_text.specs.ValueOf.{elements_onto, members_value, value_of};
ghost use Rattle.json_text.specs.Grammar.{Spells};
ghost use Rattle.json_text.specs.Fault.{RefusesText};
ghost use Rattle.json_text.specs.inner.MemberOrder.{IsGap};
ghost use Rattle.json_text.specs.inner.ReaderStates.{after, as_name, colon, first_element, first_name, pairs, string_in, value};
ghost use Rattle.json_text.specs.inner.ReaderProgress.{IsByteAt, MemberRead, NameOpens, ReadsOn, ReadsOnWithin, Refused, RefusedName, RefusedWithin};

use crate::blocks::Gap;
use crate::fault::{FaultKind, ReadError, fault, not_json};
use crate::members::OpenObject;
use crate::tokens::{pass_colon, peek_token, read_scalar, read_string, skip_white};
use crate::tree::{Chars, Json};
use gw_bytes::MOST_LEVELS;
use std::alloc::Global;

/// The tree that the bytes spell, all of the bytes.
///
/// Takes time in the number of bytes, times the logarithm of the greatest number of members of one object. Beyond twelve
/// members a name also moves at most 2,044 bytes of an index, whatever the order of the names; one in some 256 divides a
/// block of the index, and moves the blocks after it, 24 bytes each. As much stack is taken as arrays and objects are
/// open at once: at most 32.
pub fn read(alloc: Global, bytes: &[u8]) -> Result<Json, ReadError>
    // The bytes are a text of the tree, and of no other.
    ensures spelled { IfOk result (λ j. Spells (value_of j) bytes.now) }
    ensures only { IfOk result (λ j. (v : Tree) → Spells v bytes.now → v ≡ value_of j) }

    // A fault is returned only where there is no such tree, with its offset and its kind.
    ensures fault { IfErr result (λ e. RefusesText bytes.now e) }
{
    let mut offset = 0;
    let json = read_value(alloc, bytes, &mut offset, MOST_LEVELS)?;
    skip_white(bytes, &mut offset);
    if offset < bytes.len() {
        return Err(not_json(offset));
    }
    Ok(json)
}

/// The value that comes next, in which so many arrays and objects may be open at once.
#[cycle(values)]
fn read_value(
    alloc: Global,
    bytes: &[u8],
    offset: &mut usize,
    levels_left: usize,
) -> Result<Json, ReadError>
    ensures read { IfOk result (λ json. ReadsOnWithin levels_left bytes.now offset.old value offset.new (after (value_of json))) }
    ensures forward { OnOk result (offset.old < offset.new) }
    ensures refused { IfErr result (λ error. RefusedWithin levels_left bytes.now offset.old value error) }
{
    let byte = peek_token(bytes, offset)?;
    match byte {
        b'"' => {
            *offset += 1;
            let text = read_string(alloc, bytes, offset)?;
            *offset += 1;
            Ok(Json::Str(text))
        }
        b'[' => read_array(alloc, bytes, offset, levels_left),
        b'{' => read_object(alloc, bytes, offset, levels_left),
        _ => read_scalar(alloc, bytes, offset, byte),
    }
}

/// The array whose opening bracket comes next.
#[cycle(values)]
fn read_array(
    alloc: Global,
    bytes: &[u8],
    offset: &mut usize,
    levels_left: usize,
) -> Result<Json, ReadError>
    requires bracket { IsByteAt bytes.now offset.old 91 }
    ensures read { IfOk result (λ json. ReadsOnWithin levels_left bytes.now offset.old value offset.new (after (value_of json))) }
    ensures forward { OnOk result (offset.old < offset.new) }
    ensures refused { IfErr result (λ error. RefusedWithin levels_left bytes.now offset.old value error) }
{
    if levels_left == 0 {
        return Err(fault(*offset, FaultKind::TooDeep));
    }
    *offset += 1;
    Ok(Json::List(read_elements(alloc, bytes, offset, levels_left - 1)?))
}

/// The elements of an array whose opening bracket has been passed, and the closing bracket.
#[cycle(values)]
fn read_elements(
    alloc: Global,
    bytes: &[u8],
    offset: &mut usize,
    levels_left: usize,
) -> Result<Vec<Json>, ReadError>
    ensures read { IfOk result (λ elements. ReadsOnWithin (levels_left + 1) bytes.now offset.old first_element offset.new (after (array (elements_onto (map value_of elements.items) no_elements)))) }
    ensures forward { OnOk result (offset.old < offset.new) }
    ensures refused { IfErr result (λ error. RefusedWithin (levels_left + 1) bytes.now offset.old first_element error) }
{
    if peek_token(bytes, offset)? == b']' {
        *offset += 1;
        return Ok(Vec::new(alloc));
    }
    // Most arrays of messages have one element.
    let mut elements = Vec::with_capacity(alloc, 1)?;
    loop {
        let json = read_value(alloc, bytes, offset, levels_left)?;
        elements.push(json)?;
        match peek_token(bytes, offset)? {
            b',' => *offset += 1,
            b']' => {
                *offset += 1;
                return Ok(elements);
            }
            _ => return Err(not_json(*offset)),
        }
    }
}

/// The object whose opening brace comes next.
#[cycle(values)]
fn read_object(
    alloc: Global,
    bytes: &[u8],
    offset: &mut usize,
    levels_left: usize,
) -> Result<Json, ReadError>
    requires brace { IsByteAt bytes.now offset.old 123 }
    ensures read { IfOk result (λ json. ReadsOnWithin levels_left bytes.now offset.old value offset.new (after (value_of json))) }
    ensures forward { OnOk result (offset.old < offset.new) }
    ensures refused { IfErr result (λ error. RefusedWithin levels_left bytes.now offset.old value error) }
{
    if levels_left == 0 {
        return Err(fault(*offset, FaultKind::TooDeep));
    }
    *offset += 1;
    Ok(Json::Object(read_members(alloc, bytes, offset, levels_left - 1)?))
}

/// The members of an object whose opening brace has been passed, and the closing brace.
#[cycle(values)]
fn read_members(
    alloc: Global,
    bytes: &[u8],
    offset: &mut usize,
    levels_left: usize,
) -> Result<Vec<(Chars, Json)>, ReadError>
    ensures read { IfOk result (λ members. ReadsOnWithin (levels_left + 1) bytes.now offset.old first_name offset.new (after (object (members_value members.items)))) }
    ensures forward { OnOk result (offset.old < offset.new) }
    ensures refused { IfErr result (λ error. RefusedWithin (levels_left + 1) bytes.now offset.old first_name error) }
{
    match peek_token(bytes, offset)? {
        b'"' => *offset += 1,
        b'}' => {
            *offset += 1;
            return Ok(Vec::new(alloc));
        }
        _ => return Err(not_json(*offset)),
    }
    let mut opened = OpenObject::new(alloc)?;
    loop {
        read_member(alloc, bytes, offset, levels_left, &mut opened)?;
        match peek_token(bytes, offset)? {
            b',' => {
                *offset += 1;
                open_name(bytes, offset)?;
            }
            b'}' => {
                *offset += 1;
                return Ok(opened.into_members());
            }
            _ => return Err(not_json(*offset)),
        }
    }
}

/// Passes the opening quotation mark of a name after a comma.
fn open_name(bytes: &[u8], offset: &mut usize) -> Result<(), ReadError>
    ensures read { OnOk result (NameOpens bytes.now offset.old offset.new) }
    ensures forward { OnOk result (offset.old < offset.new) }
    ensures within { OnOk result (offset.new ≤ length bytes.now) }
    ensures refused { IfErr result (λ error. RefusedName bytes.now offset.old error) }
{
    if peek_token(bytes, offset)? != b'"' {
        return Err(not_json(*offset));
    }
    *offset += 1;
    Ok(())
}

/// One more member of an object, the opening quotation mark of whose name has been passed.
#[cycle(values)]
fn read_member(
    alloc: Global,
    bytes: &[u8],
    offset: &mut usize,
    levels_left: usize,
    opened: &mut OpenObject,
) -> Result<(), ReadError>
    requires { offset.old ≤ length bytes.now }
    ensures read { OnOk result (MemberRead levels_left bytes.now offset.old opened.old.members.items offset.new opened.new.members.items) }
    ensures forward { OnOk result (offset.old < offset.new) }
    ensures refused { IfErr result (λ error. RefusedWithin (levels_left + 1) bytes.now offset.old (string_in (as_name (pairs opened.old.members.items)) []) error) }
{
    let (name, gap) = read_name(alloc, bytes, offset, opened)?;
    pass_colon(bytes, offset)?;
    let json = read_value(alloc, bytes, offset, levels_left)?;
    opened.push(alloc, gap, name, json)?;
    Ok(())
}

/// The name of a next member, whose opening quotation mark has been passed, and its gap.
fn read_name(
    alloc: Global,
    bytes: &[u8],
    offset: &mut usize,
    opened: &OpenObject,
) -> Result<(Chars, Gap), ReadError>
    requires { offset.old ≤ length bytes.now }
    ensures read { IfOk result (λ named. ReadsOn bytes.now offset.old (string_in (as_name (pairs opened.now.members.items)) []) offset.new (colon (pairs opened.now.members.items) named.0)) }
    ensures gap { IfOk result (λ named. IsGap opened.now named.0 named.1) }
    ensures forward { OnOk result (offset.old < offset.new) }
    ensures refused { IfErr result (λ error. Refused bytes.now offset.old (string_in (as_name (pairs opened.now.members.items)) []) error) }
{
    let text = read_string(alloc, bytes, offset)?;
    match opened.gap(text.as_bytes()) {
        None => Err(fault(*offset, FaultKind::Repeated)),
        Some(gap) => {
            *offset += 1;
            Ok((text, gap))
        }
    }
}
