//! Reads JSON texts, one a line in hexadecimal, and reports what each is.
//!
//! Without arguments it prints for each line the canonical spelling, in hexadecimal, or the kind and offset of the
//! fault.
//! With the argument ROUNDS it reads each text so many times, and prints the nanoseconds of one reading.
#![tactic(auto)]

use anyhow::Context;
use json_text::{ReadError, read, write};
use std::env;
use std::rt::Clock;
use std::time::Instant;

/// Prints what is written of the text, or its fault.
fn report(rt: &(impl Print + AllocGlobal), text: &[u8]) -> anyhow::Result<()> {
    match read(rt.alloc(), text) {
        Ok(tree) => {
            let mut out = Vec::new(rt.alloc());
            write(rt.alloc(), &tree, &mut out)?;
            let written = hex::encode(rt.alloc(), out.as_slice())?;
            println!(rt; "{written}")?;
        }
        Err(ReadError::Fault(fault)) => println!(rt; "{fault}")?,
        Err(ReadError::Memory) => println!(rt; "out of memory")?,
    }
    Ok(())
}

/// Reads the text so many times, and prints the nanoseconds of one reading.
fn measure(
    rt: &(impl Print + AllocGlobal + Clock),
    text: &[u8],
    rounds: u64,
) -> anyhow::Result<()> {
    let start = Instant::now(rt)?;
    let mut trees: u64 = 0;
    for _ in 0..rounds {
        if read(rt.alloc(), text).is_ok() {
            trees = trees.wrapping_add(1);
        }
    }
    let all = start.elapsed(rt)?.as_nanos();
    let each = u64::try_from(all).unwrap_or(u64::MAX) / rounds.max(1);
    println!(rt; "{each} ns for {} bytes ({trees} trees)", text.len())?;
    Ok(())
}

fn main(rt: HostRuntime) -> anyhow::Result<()> {
    let mut words = env::args(&rt)?;
    let _program = words.next();
    let rounds = match words.next() {
        Some(word) => word.as_str().parse::<u64>().context("ROUNDS")?,
        None => 0,
    };
    for line in rt.lines(rt.alloc()) {
        let line = line?;
        let text = hex::decode(rt.alloc(), line.as_str())?;
        if rounds == 0 {
            report(&rt, text.as_slice())?;
        } else {
            measure(&rt, text.as_slice(), rounds)?;
        }
    }
    Ok(())
}
