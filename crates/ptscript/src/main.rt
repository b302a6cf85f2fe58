//! A ZVT terminal (PA00P015) to play with, over TCP, and a trial of the gateway beside it.
//!
//! `ptscript serve ADDRESS` listens at an IP address and a port, and serves one gateway at a time: it approves each payment and reversal, and
//! keeps its book when a link ends. `ptscript play ADDRESS PLAY..` plays these first, one for each payment: `approve`, `decline:6C` with any
//! result code, `cut`, `drop` or `silent`. `ptscript pair GATEWAY` runs the gateway at this path twice on one journal, and
//! kills it once its payment is booked: the card is charged once, and the second run says so.
#![tactic(auto)]

mod book_line;
mod fault;
mod link;
mod pair;
mod played;
mod till;
mod words;

use fault::Fault;
use gw_site::{Failed, Sink, StdSink};
use pair::{Findings, try_gateway};
use played::PlayedTerminal;
use std::alloc::{AllocError, Global};
use std::env::{self, Env};
use std::io::ErrorKind;
use std::process::ExitCode;
use words::{NamedPlay, Order, order_of};

/// The status of a pair run that has shown something else.
const DIFFERS: u8 = 1;

/// The words after the program's name. Where one of them isn't UTF-8 there are none, and so they are refused.
fn words_of<R: Env + AllocGlobal>(rt: &R) -> Result<Vec<String>, AllocError> {
    let mut words = Vec::new(rt.alloc());
    match env::args(rt) {
        Ok(args) => {
            for word in args.skip(1) {
                words.push(word)?;
            }
        }
        Err(error) => {
            if error.kind() != ErrorKind::InvalidData {
                return Err(AllocError);
            }
        }
    }
    Ok(words)
}

/// Prints a text.
fn print<O: Sink>(out: &mut O, text: &str) -> Result<(), Fault> {
    match out.write(text.as_bytes()) {
        Ok(()) => Ok(()),
        Err(Failed) => Err(Fault::Output),
    }
}

/// Plays the terminal, until no turn is left.
fn play<O: Sink>(
    rt: &HostRuntime,
    address: &str,
    plays: Vec<NamedPlay>,
    out: &mut O,
) -> Result<u8, Fault> {
    let mut played = PlayedTerminal::new(rt.alloc(), plays)?;
    link::serve(rt, address, &mut played, out)?;
    Ok(0)
}

/// Prints what a pair run has shown, and returns the status.
fn report<O: Sink>(alloc: Global, found: Findings, out: &mut O) -> Result<u8, Fault> {
    let text = format!(in alloc; "charged {}\ntold {}\n", found.charged, found.said.name())?;
    print(out, text.as_str())?;
    Ok(if found.is_right() { 0 } else { DIFFERS })
}

/// Does what the words ask for.
fn run<O: Sink>(rt: &HostRuntime, out: &mut O) -> Result<u8, Fault> {
    let words = words_of(rt)?;
    match order_of(rt.alloc(), &words)? {
        Some(Order::Play(address, plays)) => play(rt, address, plays, out),
        Some(Order::Pair(gateway)) => report(rt.alloc(), try_gateway(rt, gateway)?, out),
        None => Err(Fault::Words),
    }
}

fn main(rt: HostRuntime) -> ExitCode {
    let mut out = StdSink::new(rt.stdout());
    let status = match run(&rt, &mut out) {
        Ok(status) => status,
        Err(fault) => match print(&mut out, fault.line()) {
            Ok(()) => fault.status(),
            Err(fault) => fault.status(),
        },
    };
    ExitCode::from(status)
}
