//! A program over its words.
use crate::seats::Seats;
use crate::words;
use std::alloc::AllocError;
use std::env;
use std::io::ErrorKind;
use std::process::ExitCode;

/// How a program ends.
#[derive(Clone, Copy, Debug)]
enum Ending {
    Done,
    Words,
    Listen,
    Memory,
}

impl Ending {
    fn status(self) -> u8 {
        match self {
            Ending::Done => 0,
            Ending::Words => 64,
            Ending::Listen => 69,
            Ending::Memory => 71,
        }
    }

    /// The line that it prints.
    fn line(self) -> &'static str {
        match self {
            Ending::Done => "",
            Ending::Words => "words\n",
            Ending::Listen => "listen\n",
            Ending::Memory => "memory\n",
        }
    }
}

/// The words after the program's name.
///
/// Where one of them isn't UTF-8 there are none: no list with such a word is accepted, nor is the empty one.
fn words_of(rt: &HostRuntime) -> Result<Vec<String>, AllocError> {
    let mut words = Vec::new(rt.alloc());
    match env::args(rt) {
        Ok(args) => {
            for word in args.skip(1) {
                words.push(word)?;
            }
        }
        Err(error) => {
            if error.kind() != ErrorKind::InvalidData {
                return Err(AllocError);
            }
        }
    }
    Ok(words)
}

/// Serves as the words ask.
fn serve(rt: &HostRuntime, most: usize) -> Ending {
    let Ok(words) = words_of(rt) else {
        return Ending::Memory;
    };
    let Some(route) = words::read(&words) else {
        return Ending::Words;
    };
    match Seats::open(rt, rt.alloc(), &route, most) {
        Ok(mut seats) => {
            seats.serve(rt);
            Ending::Done
        }
        Err(error) => match error.kind() {
            ErrorKind::OutOfMemory => Ending::Memory,
            _ => Ending::Listen,
        },
    }
}

/// Joins tills that speak WebSocket to the gateway, as the process's words `LISTEN GATEWAY [SOCKETS]` ask, with `most` sockets at the
/// same time. It prints why it ends, and returns the status.
pub fn run(rt: &HostRuntime, most: usize) -> ExitCode {
    let ending = serve(rt, most);
    let _ = print!(rt; "{}", ending.line());
    ExitCode::from(ending.status())
}
