//! The lines that are played.
ghost use Rattle.std.specs.Prelude.{◌≡◌, ◌==◌, option_map, option_and_then, IfOk, ℕ};
ghost use Rattle.std.specs.Result.{result_ok};
ghost use Rattle.hex.specs.Hex.{decode_of};
ghost use Rattle.gw_script.specs.Decode.{number, split_at_space};
ghost use Rattle.gw_script.specs.site.Decode.{after_word, failing_of, failing_on, failing_parts, image_of, junk_of, link_number, power_of, pt_bytes, single, till_bytes, till_said};
ghost use Rattle.gw_script.specs.site.ScriptLine.{FailSendPt, FailSendTill};
ghost use Rattle.sim_script.specs.Values.{script_event_value, failing_value, image_value, script_line_value};

use crate::line::{FailingCall, ImageKind, ScriptEvent, ScriptLine};
use crate::word::{chunk, decoded, first_word, link_number, number, said};
use std::alloc::{AllocError, Global};

/// The event that `till` and these words spell.
pub(crate) fn till_bytes(alloc: Global, text: &str) -> Result<Option<ScriptEvent>, AllocError>
    ensures { IfOk result (λ event. option_map script_event_value event ≡ till_bytes text.now) }
{
    let Some((word, hex)) = first_word(text) else {
        return Ok(None);
    };
    match number(word) {
        Some(till) => Ok(chunk(alloc, hex)?.map(|bytes| ScriptEvent::FromTill(till, bytes))),
        None => Ok(None),
    }
}

/// The event that `say` and these words spell.
pub(crate) fn till_said(alloc: Global, text: &str) -> Result<Option<ScriptEvent>, AllocError>
    ensures { IfOk result (λ event. option_map script_event_value event ≡ till_said text.now) }
{
    let Some((word, message)) = first_word(text) else {
        return Ok(None);
    };
    match number(word) {
        Some(till) => Ok(said(alloc, message)?.map(|bytes| ScriptEvent::FromTill(till, bytes))),
        None => Ok(None),
    }
}

/// The event that `pt` and these words spell.
pub(crate) fn pt_bytes(alloc: Global, text: &str) -> Result<Option<ScriptEvent>, AllocError>
    ensures { IfOk result (λ event. option_map script_event_value event ≡ pt_bytes text.now) }
{
    let Some((word, hex)) = first_word(text) else {
        return Ok(None);
    };
    match link_number(word) {
        Some(pt) => Ok(chunk(alloc, hex)?.map(|bytes| ScriptEvent::FromPt(pt, bytes))),
        None => Ok(None),
    }
}

/// The failing send to a till that these words name.
fn failing_till(text: &str) -> Option<FailingCall>
    ensures { option_map failing_value result ≡ after_word number (λ till most. option_map (FailSendTill till) (number most)) (split_at_space text.now) }
{
    let (word, rest) = first_word(text)?;
    let till = number(word)?;
    let most = number(rest)?;
    Some(FailingCall::SendTill(till, most))
}

/// The failing send to a terminal that these words name.
fn failing_pt(text: &str) -> Option<FailingCall>
    ensures { option_map failing_value result ≡ after_word link_number (λ pt most. option_map (FailSendPt pt) (number most)) (split_at_space text.now) }
{
    let (word, rest) = first_word(text)?;
    let pt = link_number(word)?;
    let most = number(rest)?;
    Some(FailingCall::SendPt(pt, most))
}

/// The failing call with a connection that these words name.
fn failing_on(word: &str, rest: &str) -> Option<FailingCall>
    ensures { option_map failing_value result ≡ failing_on word.now rest.now }
{
    if word == "link" {
        Some(FailingCall::Link(link_number(rest)?))
    } else if word == "send-till" {
        failing_till(rest)
    } else if word == "send-pt" {
        failing_pt(rest)
    } else {
        None
    }
}

/// The failing call that `fail` and these words name.
pub(crate) fn failing_of(text: &str) -> Option<FailingCall>
    ensures { option_map failing_value result ≡ failing_of text.now }
{
    if text == "open" {
        Some(FailingCall::Open)
    } else if text == "write" {
        Some(FailingCall::Write)
    } else if text == "sync" {
        Some(FailingCall::Sync)
    } else if text == "length" {
        Some(FailingCall::Length)
    } else if text == "read" {
        Some(FailingCall::Read)
    } else {
        let (word, rest) = first_word(text)?;
        failing_on(word, rest)
    }
}

/// The only byte of these.
fn single(bytes: &[u8]) -> Option<u8>
    ensures { result ≡ single bytes.now }
{
    match bytes {
        [byte] => Some(*byte),
        _ => None,
    }
}

/// The byte that a hexadecimal text spells.
fn junk_byte(alloc: Global, text: &str) -> Result<Option<u8>, AllocError>
    ensures { IfOk result (λ byte. byte ≡ option_and_then single (result_ok (decode_of text.now))) }
{
    match decoded(alloc, text)? {
        Some(bytes) => Ok(single(bytes.as_slice())),
        None => Ok(None),
    }
}

/// The image `junk B`.
fn junk_of(alloc: Global, text: &str) -> Result<Option<ImageKind>, AllocError>
    ensures { IfOk result (λ kind. option_map image_value kind ≡ junk_of (split_at_space text.now)) }
{
    match first_word(text) {
        Some((word, rest)) if word == "junk" => { Ok(junk_byte(alloc, rest)?.map(ImageKind::Junk)) }
        _ => Ok(None),
    }
}

/// What a power failure leaves, by these words.
fn image_of(alloc: Global, text: &str) -> Result<Option<ImageKind>, AllocError>
    ensures { IfOk result (λ kind. option_map image_value kind ≡ image_of text.now) }
{
    if text == "old" {
        Ok(Some(ImageKind::Old))
    } else if text == "new" {
        Ok(Some(ImageKind::New))
    } else {
        junk_of(alloc, text)
    }
}

/// The power failure that `power` and these words spell.
pub(crate) fn power_of(alloc: Global, text: &str) -> Result<Option<ScriptLine>, AllocError>
    ensures { IfOk result (λ line. option_map script_line_value line ≡ power_of text.now) }
{
    let Some((word, rest)) = first_word(text) else {
        return Ok(None);
    };
    match number(word) {
        Some(calls) => Ok(image_of(alloc, rest)?.map(|kind| ScriptLine::Power(calls, kind))),
        None => Ok(None),
    }
}
