//! Feeds a reader with a stream of mixed APDUs in chunks of 1, 100 and 4,096 bytes.
//!
//! Without arguments it reads a short stream and prints what it counted. With the arguments BYTES and ROUNDS it reads
//! a stream of that length so many times, and prints the nanoseconds per APDU too, beside those of adding up the same
//! bytes in the same chunks.
#![tactic(auto)]

ghost use Rattle.std.specs.Prelude.{◌≡◌, ◌<◌, ◌≤◌, length, OnOk};
ghost use Rattle.zvt_apdu.specs.Decode.{DecodedApdu, decode_apdu};

use anyhow::Context;
use arrayvec::ArrayVec;
use std::alloc::{AllocError, Global};
use std::env;
use std::rt::Clock;
use std::time::Instant;
use zvt_apdu::{ApduFault, ApduReader, write_apdu};

/// Class, instruction and data of the APDUs of one payment as a terminal sends them.
const PAYMENT: [(u8, u8, &[u8]); 8] = [
    (0x80, 0x00, b""),
    (0x04, 0xFF, b"\x0a"),
    (0x04, 0xFF, b"\x41"),
    (0x06, 0xD1, b"\x00        Kaffee und Kuchen   "),
    (0x06, 0xD1, b"\x00        EUR             5,50"),
    (0x06, 0xD3, &[0x41; 260]),
    (
        0x04,
        0x0F,
        b"\x27\x00\x04\x00\x00\x00\x00\x05\x50\x0b\x00\x01\x23\x87\x00\x17",
    ),
    (0x06, 0x0F, b""),
];

/// What was read.
#[derive(Clone, Copy, Debug, Default, PartialEq, Eq)]
struct Tally {
    apdus: u64,
    bytes: u64,
}

/// Whole payments, at least this many bytes.
fn stream_of(alloc: Global, bytes: usize) -> Result<Vec<u8>, AllocError> {
    let mut stream = Vec::new(alloc);
    for _ in 0..bytes / 300 + 1 {
        for (class, instr, data) in PAYMENT {
            let mut out = ArrayVec::new();
            write_apdu(class, instr, data, &mut out);
            stream.extend_from_slice(out.as_slice())?;
        }
    }
    Ok(stream)
}

/// Feeds a chunk, and counts each APDU that is whole then.
fn read_chunk(reader: &mut ApduReader, chunk: &[u8], tally: &mut Tally) -> Result<(), ApduFault>
    requires chunk { length chunk.now ≤ 4096 }
    requires waits { decode_apdu reader.old ≡ DecodedApdu.Incomplete }
    ensures { OnOk result (decode_apdu reader.new ≡ DecodedApdu.Incomplete) }
{
    reader.feed(chunk);
    while let Some(apdu) = reader.next()? {
        tally.apdus = tally.apdus.wrapping_add(1);
        tally.bytes = tally.bytes.wrapping_add(apdu.body.len() as u64);
    }
    Ok(())
}

/// Reads the stream in chunks of this size.
fn read_chunks(reader: &mut ApduReader, stream: &[u8], size: usize) -> Result<Tally, ApduFault>
    requires some { 0 < size }
    requires few { size ≤ 4096 }
{
    let mut tally = Tally::default();
    let mut rest = stream;
    reader.clear();
    while !rest.is_empty() {
        let (chunk, more) = rest.split_at(rest.len().min(size));
        read_chunk(reader, chunk, &mut tally)?;
        rest = more;
    }
    Ok(tally)
}

/// Adds up the bytes of the stream in chunks of this size.
fn sum_chunks(stream: &[u8], size: usize) -> u64
    requires { 0 < size }
{
    let mut sum: u64 = 0;
    let mut rest = stream;
    while !rest.is_empty() {
        let (chunk, more) = rest.split_at(rest.len().min(size));
        for byte in chunk {
            sum = sum.wrapping_add(u64::from(*byte));
        }
        rest = more;
    }
    sum
}

/// Nanoseconds since `start` for each of so many.
fn nanoseconds_each(rt: &impl Clock, start: Instant, count: u64) -> anyhow::Result<u64> {
    let all = start.elapsed(rt)?.as_nanos();
    Ok(u64::try_from(all).unwrap_or(u64::MAX) / count.max(1))
}

/// Reads and adds up the stream in chunks of this size, so many times where there are rounds, and prints the figures.
fn report(
    rt: &(impl Print + Clock),
    reader: &mut ApduReader,
    stream: &[u8],
    size: usize,
    rounds: u64,
) -> anyhow::Result<()>
    requires some { 0 < size }
    requires few { size ≤ 4096 }
{
    let tally = read_chunks(reader, stream, size)?;
    let sum = sum_chunks(stream, size);
    println!(rt;
        "chunks of {size}: {} APDUs, {} bytes of data, sum {sum}",
        tally.apdus, tally.bytes
    )?;
    if rounds == 0 {
        return Ok(());
    }
    let start = Instant::now(rt)?;
    for _ in 0..rounds {
        read_chunks(reader, stream, size)?;
    }
    let reading = nanoseconds_each(rt, start, tally.apdus.saturating_mul(rounds))?;
    let start = Instant::now(rt)?;
    let mut sums: u64 = 0;
    for _ in 0..rounds {
        sums = sums.wrapping_add(sum_chunks(stream, size));
    }
    let adding = nanoseconds_each(rt, start, tally.apdus.saturating_mul(rounds))?;
    println!(rt; "  per APDU: {reading} ns read, {adding} ns added up ({sums})")?;
    Ok(())
}

fn main(rt: HostRuntime) -> anyhow::Result<()> {
    let mut words = env::args(&rt)?;
    let _program = words.next();
    let bytes = match words.next() {
        Some(word) => word.as_str().parse::<usize>().context("BYTES")?,
        None => 600,
    };
    let rounds = match words.next() {
        Some(word) => word.as_str().parse::<u64>().context("ROUNDS")?,
        None => 0,
    };
    let stream = stream_of(rt.alloc(), bytes)?;
    let mut reader = ApduReader::new(rt.alloc())?;
    report(&rt, &mut reader, stream.as_slice(), 1, rounds)?;
    report(&rt, &mut reader, stream.as_slice(), 100, rounds)?;
    report(&rt, &mut reader, stream.as_slice(), 4_096, rounds)
}
