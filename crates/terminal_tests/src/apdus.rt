//! APDUs, read out of chunks and written.
ghost use Rattle.std.specs.Prelude.{◌≡◌, ◌≤◌, length, OnOk};
ghost use Rattle.zvt_apdu.specs.Decode.{DecodedApdu, decode_apdu};

use anyhow::ensure;
use arrayvec::ArrayVec;
use case_files::{bytes_of, push_bytes, push_result_bytes};
use gw_bytes::LONGEST_CHUNK;
use std::alloc::{AllocError, Global};
use zvt_apdu::{Apdu, ApduFault, ApduReader, write_apdu};

/// Why no more APDUs are taken of a reader.
enum Stop {
    Fault(ApduFault),
    Memory(AllocError),
}

impl From<ApduFault> for Stop {
    fn from(fault: ApduFault) -> Stop {
        Stop::Fault(fault)
    }
}

impl From<AllocError> for Stop {
    fn from(error: AllocError) -> Stop {
        Stop::Memory(error)
    }
}

fn push_apdu(out: &mut String, apdu: &Apdu<'_>) -> Result<(), AllocError> {
    write!(out, "> {:02x}{:02x} ", apdu.class, apdu.instr)?;
    push_bytes(out, apdu.body)?;
    out.push_str("\n")
}

/// Appends the APDUs that are whole.
fn push_whole(out: &mut String, reader: &mut ApduReader) -> Result<(), Stop>
    ensures { OnOk result (decode_apdu reader.new ≡ DecodedApdu.Incomplete) }
{
    while let Some(apdu) = reader.next()? {
        push_apdu(out, &apdu)?;
    }
    Ok(())
}

/// Appends the APDUs that are whole, or the fault, which comes again. The reader is cleared after a fault.
fn push_given(out: &mut String, reader: &mut ApduReader) -> Result<(), AllocError>
    ensures { OnOk result (decode_apdu reader.new ≡ DecodedApdu.Incomplete) }
{
    match push_whole(out, reader) {
        Ok(()) => Ok(()),
        Err(Stop::Memory(error)) => Err(error),
        Err(Stop::Fault(fault)) => {
            let comes_again = reader.next().err() == Some(fault);
            reader.clear();
            write!(out, "> {fault}, again {comes_again}\n")
        }
    }
}

/// Feeds a chunk, and appends the APDUs that are whole then.
fn push_chunk(out: &mut String, reader: &mut ApduReader, chunk: &[u8]) -> Result<(), AllocError>
    requires chunk { length chunk.now ≤ 4096 }
    requires waits { decode_apdu reader.old ≡ DecodedApdu.Incomplete }
    ensures { OnOk result (decode_apdu reader.new ≡ DecodedApdu.Incomplete) }
{
    reader.feed(chunk);
    push_given(out, reader)
}

/// The most bytes of a stream that is read in chunks of every size.
const LONGEST_STREAM: usize = 4_096;

/// What a stream gives that comes in three chunks, of which the first two end here.
fn push_three(
    out: &mut String,
    reader: &mut ApduReader,
    stream: &[u8],
    first: usize,
    second: usize,
) -> Result<(), AllocError>
    requires { length stream.now ≤ 4096 }
{
    let (before, last) = stream.split_at(second.min(stream.len()));
    let (begin, middle) = before.split_at(first.min(before.len()));
    reader.clear();
    push_chunk(out, reader, begin)?;
    push_chunk(out, reader, middle)?;
    push_chunk(out, reader, last)
}

/// Whether a stream that comes in three chunks, of which the first ends here, always gives this.
fn always_gives(
    given: &mut String,
    reader: &mut ApduReader,
    stream: &[u8],
    first: usize,
    wanted: &str,
) -> Result<bool, AllocError>
    requires { length stream.now ≤ 4096 }
{
    for second in first..=stream.len() {
        given.clear();
        push_three(given, reader, stream, first, second)?;
        if given.as_str() != wanted {
            return Ok(false);
        }
    }
    Ok(true)
}

/// Appends where the first of three chunks ends in which a stream gives anything but this.
fn push_others(
    out: &mut String,
    given: &mut String,
    reader: &mut ApduReader,
    stream: &[u8],
    wanted: &str,
) -> Result<(), AllocError>
    requires { length stream.now ≤ 4096 }
{
    for first in 0..=stream.len() {
        if !always_gives(given, reader, stream, first, wanted)? {
            write!(out, "> others where the first chunk has {first} bytes\n")?;
        }
    }
    Ok(())
}

/// Appends this, and where a stream gives anything else.
fn push_wanted(
    alloc: Global,
    out: &mut String,
    reader: &mut ApduReader,
    stream: &[u8],
    wanted: &str,
) -> Result<(), AllocError>
    requires { length stream.now ≤ 4096 }
{
    out.push_str(wanted)?;
    let mut given = String::new(alloc);
    push_others(out, &mut given, reader, stream, wanted)
}

/// Appends the APDUs of a stream; in each three chunks that it has it gives the same, or else the result says where.
pub fn push_in_three_chunks(alloc: Global, out: &mut String, stream: &[u8]) -> anyhow::Result<()> {
    ensure!(stream.len() <= LONGEST_STREAM, "a long stream");
    let mut reader = ApduReader::new(alloc)?;
    let mut wanted = String::new(alloc);
    push_three(&mut wanted, &mut reader, stream, 0, 0)?;
    push_wanted(alloc, out, &mut reader, stream, wanted.as_str())?;
    Ok(())
}

/// Appends the APDUs of a stream that comes byte by byte: after each byte those that are whole then.
pub fn push_by_byte(alloc: Global, out: &mut String, stream: &[u8]) -> anyhow::Result<()> {
    let mut reader = ApduReader::new(alloc)?;
    for byte in stream {
        push_chunk(out, &mut reader, &[*byte])?;
    }
    Ok(())
}

/// Appends the APDUs of two chunks, and before those of the second one `> then`.
fn push_then(
    out: &mut String,
    reader: &mut ApduReader,
    first: &[u8],
    second: &[u8],
) -> Result<(), AllocError>
    requires first { length first.now ≤ 4096 }
    requires second { length second.now ≤ 4096 }
    requires waits { decode_apdu reader.old ≡ DecodedApdu.Incomplete }
{
    push_chunk(out, reader, first)?;
    out.push_str("> then\n")?;
    push_chunk(out, reader, second)
}

/// As [`push_then`], of a reader of its own.
fn push_chunks(alloc: Global, out: &mut String, first: &[u8], second: &[u8]) -> anyhow::Result<()> {
    ensure!(first.len() <= LONGEST_CHUNK, "a long chunk");
    ensure!(second.len() <= LONGEST_CHUNK, "a long second chunk");
    let mut reader = ApduReader::new(alloc)?;
    push_then(out, &mut reader, first, second)?;
    Ok(())
}

/// Appends the APDUs of two chunks, which ` / ` divides, and before those of the second one `> then`.
pub fn push_two(alloc: Global, out: &mut String, words: &str) -> anyhow::Result<()> {
    let (first, second) = words.split_once('/').unwrap_or((words, ""));
    let first = bytes_of(alloc, first)?;
    let second = bytes_of(alloc, second)?;
    push_chunks(alloc, out, first.as_slice(), second.as_slice())
}

/// Appends the written form of an APDU: its class, its instruction and its data are given.
pub fn push_written(out: &mut String, bytes: &[u8]) -> anyhow::Result<()> {
    let [class, instr, body @ ..] = bytes else {
        anyhow::bail!("no APDU");
    };
    ensure!(body.len() <= 500, "a long body");
    let mut written = ArrayVec::new();
    write_apdu(*class, *instr, body, &mut written);
    push_result_bytes(out, written.as_slice())?;
    Ok(())
}
