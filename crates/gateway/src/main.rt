//! The gateway's program: the top call over the words and the standard streams of the process, and a site over sockets and a file.
#![tactic(auto)]

ghost use Rattle.std.specs.Prelude.{◌≡◌, ◌⊎◌, codes};
ghost use Rattle.gw_site.specs.Failures.{Rose};
ghost use Rattle.gw_bytes.specs.Bytes.{IsPrefix};
ghost use Rattle.gw_run.specs.LogWritten.{Adds};

use gw_base::Text;
use gw_site::{Failed, Sink, StdSink, StdSource};
use net_site::NetSite;
use std::alloc::AllocError;
use std::env::{self, Env};
use std::io::ErrorKind;
use std::process::ExitCode;

/// The words after the program's name.
///
/// Where one of them isn't UTF-8 there are none: no list with such a word is accepted, nor is the empty one.
fn words_of<R: Env + AllocGlobal>(rt: &R) -> Result<Vec<Text>, AllocError> {
    let mut words = Vec::new(rt.alloc());
    match env::args(rt) {
        Ok(args) => {
            for word in args.skip(1) {
                words.push(Text::new(word))?;
            }
        }
        Err(error) => {
            if error.kind() != ErrorKind::InvalidData {
                return Err(AllocError);
            }
        }
    }
    Ok(words)
}

/// Writes the last lines where there was no memory for the words or the site, and returns the status.
fn report_memory<O: Sink>(out: &mut O) -> u8
    ensures whole { result ≡ 71 → Adds (O.written out.old) (O.written out.new) (λ text. text ≡ codes "memory\nstatus 71\n") }
    ensures prefix { result ≡ 73 → Adds (O.written out.old) (O.written out.new) (λ text. IsPrefix text (codes "memory\nstatus 71\n")) }
    ensures output_failed { result ≡ 73 → Rose (O.faults out.old) (O.faults out.new) }
    ensures status { (result ≡ 71) ⊎ (result ≡ 73) }
{
    match out.write(b"memory\nstatus 71\n") {
        Ok(()) => 71,
        Err(Failed) => 73,
    }
}

fn main(rt: HostRuntime) -> ExitCode {
    let mut input = StdSource::new(rt.stdin());
    let mut out = StdSink::new(rt.stdout());
    let status = match (words_of(&rt), NetSite::new(&rt, rt.alloc())) {
        (Ok(words), Ok(mut site)) => gw_run::top(
            rt.alloc(),
            &words,
            &mut site,
            &mut input,
            &mut out,
        ),
        (Err(AllocError), _) | (_, Err(AllocError)) => report_memory(&mut out),
    };
    ExitCode::from(status)
}
