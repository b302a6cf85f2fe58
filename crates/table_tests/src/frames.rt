//! Frames of messages of tills, read out of chunks.
ghost use Rattle.std.specs.Prelude.{◌≤◌, length};

use anyhow::ensure;
use case_files::{bytes_of, done, push_result_bytes};
use gw_bytes::LONGEST_CHUNK;
use sale_frame::{FrameFault, FrameReader, frame_length};
use std::alloc::{AllocError, Global};

/// Appends the payload that is whole, or the fault. Whether there may be another one.
fn push_next(out: &mut String, reader: &mut FrameReader) -> Result<bool, AllocError> {
    match reader.next() {
        Ok(Some(payload)) => {
            push_result_bytes(out, payload)?;
            Ok(true)
        }
        Ok(None) => {
            out.push_str("> none\n")?;
            Ok(false)
        }
        Err(fault) => {
            write!(out, "> {fault}\n")?;
            Ok(false)
        }
    }
}

/// Feeds a chunk, and appends the payloads that are whole then, and `> none` or the fault.
fn push_chunk(
    alloc: Global,
    out: &mut String,
    reader: &mut FrameReader,
    chunk: &[u8],
) -> anyhow::Result<()> {
    ensure!(chunk.len() <= LONGEST_CHUNK, "a long chunk");
    reader.feed(alloc, chunk)?;
    for _ in 0..=chunk.len() {
        if !push_next(out, reader)? {
            break;
        }
    }
    Ok(())
}

/// Appends the payloads of chunks, which ` / ` divides.
pub fn push_frames(alloc: Global, out: &mut String, words: &str) -> anyhow::Result<()> {
    let mut reader = FrameReader::new(alloc)?;
    for chunk in words.split('/') {
        push_words(alloc, out, &mut reader, chunk)?;
    }
    Ok(())
}

fn push_words(
    alloc: Global,
    out: &mut String,
    reader: &mut FrameReader,
    words: &str,
) -> anyhow::Result<()> {
    let chunk = bytes_of(alloc, words)?;
    push_chunk(alloc, out, reader, chunk.as_slice())
}

/// Feeds a byte, and appends the payload that is whole then. The fault, if there is one.
fn push_byte(
    alloc: Global,
    out: &mut String,
    reader: &mut FrameReader,
    byte: u8,
) -> Result<Option<FrameFault>, AllocError> {
    reader.feed(alloc, &[byte])?;
    match reader.next() {
        Ok(Some(payload)) => {
            push_result_bytes(out, payload)?;
            Ok(None)
        }
        Ok(None) => Ok(None),
        Err(fault) => Ok(Some(fault)),
    }
}

/// Appends the payloads of a stream that comes byte by byte, and the last fault.
pub fn push_by_byte(alloc: Global, out: &mut String, stream: &[u8]) -> Result<(), AllocError> {
    let mut reader = FrameReader::new(alloc)?;
    let mut fault = None;
    for byte in stream {
        if let Some(own) = push_byte(alloc, out, &mut reader, *byte)? {
            fault = Some(own);
        }
    }
    match fault {
        Some(fault) => write!(out, "> {fault}\n"),
        None => out.push_str("> none\n"),
    }
}

/// Whether the reader, fed two chunks, gives nothing before the second and then this payload.
fn gives(alloc: Global, chunks: (&[u8], &[u8]), payload: &[u8]) -> Result<bool, AllocError>
    requires first { length chunks.0.now ≤ 4096 }
    requires second { length chunks.1.now ≤ 4096 }
{
    let mut reader = FrameReader::new(alloc)?;
    reader.feed(alloc, chunks.0)?;
    let is_early = matches!(reader.next(), Ok(Some(_)));
    reader.feed(alloc, chunks.1)?;
    match reader.next() {
        Ok(Some(whole)) => Ok(whole == payload && !is_early),
        _ => Ok(false),
    }
}

/// A length and the payload after it.
fn frame_of(alloc: Global, length: &[u8], payload: &[u8]) -> Result<Vec<u8>, AllocError> {
    let mut frame = Vec::new(alloc);
    frame.extend_from_slice(length)?;
    frame.extend_from_slice(payload)?;
    Ok(frame)
}

/// Appends where a frame, in two chunks, gives anything but this text.
fn push_others(alloc: Global, out: &mut String, frame: &[u8], text: &str) -> anyhow::Result<()> {
    ensure!(frame.len() <= LONGEST_CHUNK, "a long frame");
    for first in 0..frame.len() {
        if !gives(alloc, frame.split_at(first), text.as_bytes())? {
            write!(out, "> another where the first chunk has {first} bytes\n")?;
        }
    }
    Ok(())
}

/// Appends whether the frame of a text gives it in each two chunks that it has.
pub fn push_in_two_chunks(alloc: Global, out: &mut String, text: &str) -> anyhow::Result<()> {
    ensure!(
        !text.is_empty() && text.len() <= 4000,
        "no payload of one chunk"
    );
    let frame = frame_of(alloc, &frame_length(text.len()), text.as_bytes())?;
    push_others(alloc, out, frame.as_slice(), text)?;
    done(out.push_str("> the text\n"))
}
