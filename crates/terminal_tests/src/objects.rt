//! TLV objects, read and written.
ghost use Rattle.std.specs.Prelude.{◌≤◌, length, IfSome};
ghost use Rattle.zvt_tlv.specs.Grammar.{IsTag, canonical_tag};

use anyhow::{Context, ensure};
use arrayvec::ArrayVec;
use case_files::{bytes_of, done, push_bytes, push_result_bytes};
use std::alloc::{AllocError, Global};
use zvt_tlv::{Object, Tlv, tlv_length, write_object};

fn push_object(out: &mut String, object: &Object<'_>) -> Result<(), AllocError> {
    write!(out, "> {:02x}: ", object.tag)?;
    push_bytes(out, object.value)?;
    out.push_str("\n")
}

/// Appends the next object, or `> end`, or the fault. Whether there was one.
fn push_next(out: &mut String, tlv: &mut Tlv<'_>) -> Result<bool, AllocError> {
    match tlv.next() {
        Ok(Some(object)) => {
            push_object(out, &object)?;
            Ok(true)
        }
        Ok(None) => {
            out.push_str("> end\n")?;
            Ok(false)
        }
        Err(fault) => {
            write!(out, "> {fault}\n")?;
            Ok(false)
        }
    }
}

/// Appends the objects of bytes, and `> end` or the fault.
pub fn push_objects(out: &mut String, bytes: &[u8]) -> Result<(), AllocError> {
    let mut tlv = Tlv::over(bytes);
    for _ in 0..=bytes.len() {
        if !push_next(out, &mut tlv)? {
            break;
        }
    }
    Ok(())
}

/// Appends the length that bytes begin with, and how many of them it takes.
pub fn push_length(out: &mut String, bytes: &[u8]) -> Result<(), AllocError> {
    match tlv_length(bytes) {
        Some((length, size)) => write!(out, "> {length} in {size}\n"),
        None => out.push_str("> none\n"),
    }
}

/// A tag that is written here.
fn tag_of(word: &str) -> Option<u32>
    ensures tag { IfSome result IsTag }
    ensures size { IfSome result (λ tag. length (canonical_tag tag) ≤ 3) }
{
    match word {
        "07" => Some(0x07),
        "25" => Some(0x25),
        "1f05" => Some(0x1F05),
        "1f8505" => Some(0x1F_8505),
        _ => None,
    }
}

/// The written form of an object with at most 500 bytes.
fn written(tag: u32, value: &[u8]) -> ArrayVec<u8, 512>
    requires tag { IsTag tag }
    requires size { length (canonical_tag tag) ≤ 3 }
    requires value { length value.now ≤ 500 }
{
    let mut out = ArrayVec::new();
    write_object(tag, value, &mut out);
    out
}

/// Appends the written form of an object.
fn push_written_object(out: &mut String, tag: u32, value: &[u8]) -> anyhow::Result<()>
    requires tag { IsTag tag }
    requires size { length (canonical_tag tag) ≤ 3 }
{
    ensure!(value.len() <= 500, "a long value");
    let written = written(tag, value);
    done(push_result_bytes(out, written.as_slice()))
}

/// Appends the written form of an object, which is its tag, `=` and its bytes.
pub fn push_written(alloc: Global, out: &mut String, words: &str) -> anyhow::Result<()> {
    let (tag, value) = words.split_once('=').context("no object")?;
    let tag = tag_of(tag).context("no tag")?;
    let value = bytes_of(alloc, value)?;
    push_written_object(out, tag, value.as_slice())
}
