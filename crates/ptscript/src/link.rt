//! Links over sockets.
ghost use Rattle.std.specs.Prelude.{◌≤◌, None};

use crate::fault::Fault;
use crate::played::PlayedTerminal;
use gw_site::{Failed, Sink, StdSource};
use std::io::{self, ErrorKind, Write};
use std::net::{Net, SocketAddr, TcpListener, TcpStream};
use std::thread;
use std::time::{Clock, Duration};

/// How long it waits after a link that could not be taken, in milliseconds.
const PAUSE: u64 = 100;

/// Where the terminal writes on a link. A proof observes nothing of its bytes.
#[derive(Drop)]
pub(crate) struct LinkSink<'a> {
    stream: &'a TcpStream,
    faults: u64,
}

impl<'a> LinkSink<'a> {
    /// The sink of a connection.
    pub(crate) fn new(stream: &'a TcpStream) -> LinkSink<'a> {
        LinkSink { stream, faults: 0 }
    }
}

impl Sink for LinkSink<'_> {
    ghost written = { λ sink. None };

    ghost faults = { λ sink. sink.faults };

    fn write(&mut self, bytes: &[u8]) -> Result<(), Failed> {
        let mut writer = self.stream;
        match writer.write_all(bytes) {
            Ok(()) => Ok(()),
            Err(_) => {
                self.faults = self.faults.saturating_add(1);
                Err(Failed)
            }
        }
    }
}

/// Listens at an IP address and a port.
pub(crate) fn listen<R: Net<Listener = TcpListener, Stream = TcpStream>>(
    rt: &R,
    address: &str,
) -> io::Result<TcpListener> {
    let Ok(address) = address.parse::<SocketAddr>() else {
        return Err(io::Error::from(ErrorKind::InvalidInput));
    };
    TcpListener::bind(rt, address)
}

/// Serves the gateway that has connected, until its link ends.
fn serve_stream<L: Sink>(
    played: &mut PlayedTerminal,
    stream: &TcpStream,
    lines: &mut L,
) -> Result<(), Fault>
    ensures { played.new.turns ≤ played.old.turns }
{
    // A connection that is gone by now can't be set so; its first read says that it has ended.
    let _ = stream.set_nodelay(true);
    let mut input = StdSource::new(stream);
    let mut output = LinkSink::new(stream);
    played.serve_link(&mut input, &mut output, lines)?;
    Ok(())
}

/// Serves one gateway after another, until no turn is left.
pub(crate) fn serve<R: Net<Listener = TcpListener, Stream = TcpStream> + Clock, L: Sink>(
    rt: &R,
    address: &str,
    played: &mut PlayedTerminal,
    lines: &mut L,
) -> Result<(), Fault> {
    let Ok(listener) = listen(rt, address) else {
        return Err(Fault::Listen);
    };
    while played.takes_turn() {
        match listener.accept() {
            Ok((stream, _)) => serve_stream(played, &stream, lines)?,
            Err(_) => thread::sleep(rt, Duration::from_millis(PAUSE)),
        }
    }
    Ok(())
}
