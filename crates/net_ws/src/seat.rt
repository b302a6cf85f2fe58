//! One socket of a till, from its handshake to its end.
use crate::stream::set_up;
use libc::net::{POLLIN, POLLOUT};
use libc::types::pollfd;
use sale_ws::{Bridge, Bridged, Patient, SocketWire, StreamGate, socket_limits};
use std::alloc::{AllocError, Global};
use std::net::{Net, SocketAddr, TcpStream};
use std::os::fd::AsRawFd;
use std::time::Duration;
use std::{io, mem};
use tungstenite::handshake::server;
use tungstenite::{HandshakeError, MidHandshake, NoCallback, NoMask, ServerHandshake, WebSocket};

/// How many seconds a handshake and the connection to the gateway may take together.
const PATIENCE: u64 = 10;

type Greeting = MidHandshake<ServerHandshake<Patient, NoCallback>>;

type Socket = WebSocket<Patient, NoMask>;

type Talk = Bridge<SocketWire<Patient>, StreamGate<Patient>>;

/// How far a socket has come.
#[derive(Drop)]
enum Stage {
    /// Its handshake isn't finished.
    Greeting(Greeting),
    /// The connection to the gateway is being made for it.
    Calling(Socket, mio::net::TcpStream),
    /// Messages go from either side to the other.
    Talking(Talk),
    Over,
}

/// A socket, with what poll(2) knows it by.
#[derive(Drop)]
pub(crate) struct Seat {
    stage: Stage,
    /// The descriptors of the socket and of the connection to the gateway, which is -1 where there is none.
    socket: i32,
    gate: i32,
    /// By when it talks.
    until: Duration,
}

/// What poll(2) is asked of a descriptor; it passes -1 over.
fn asked(fd: i32, events: i16) -> pollfd {
    pollfd {
        fd,
        events,
        revents: 0,
    }
}

/// The connection that was made. It fails where there is no such peer, or where it was refused.
fn made(stream: mio::net::TcpStream) -> io::Result<TcpStream> {
    if let Some(error) = stream.take_error()? {
        return Err(error);
    }
    let _ = stream.peer_addr()?;
    let stream = TcpStream::from(stream);
    set_up(&stream)?;
    Ok(stream)
}

/// Closes a socket that has no connection to the gateway, or none any more.
fn close(mut wire: SocketWire<Patient>) -> Stage {
    wire.close();
    Stage::Over
}

/// A bridge from a socket to its connection to the gateway.
fn bridge(alloc: Global, socket: Socket, stream: TcpStream) -> Stage {
    let gate = StreamGate::new(Patient::new(stream));
    match Bridge::new(alloc, SocketWire::new(socket), gate) {
        Ok(talk) => Stage::Talking(talk),
        Err(AllocError) => Stage::Over,
    }
}

/// Joins a socket to the gateway, once the connection was made.
fn join(alloc: Global, socket: Socket, stream: mio::net::TcpStream) -> Stage {
    match made(stream) {
        Ok(stream) => bridge(alloc, socket, stream),
        Err(_) => close(SocketWire::new(socket)),
    }
}

/// One turn of a bridge.
fn turn(alloc: Global, mut talk: Talk) -> Stage {
    match talk.turn(alloc) {
        Ok(Bridged::Went) => Stage::Talking(talk),
        Ok(Bridged::Ended) | Err(_) => close(talk.into_wire()),
    }
}

impl Seat {
    /// A socket that has connected.
    pub(crate) fn new(alloc: Global, stream: TcpStream, now: Duration) -> io::Result<Seat> {
        set_up(&stream)?;
        let socket = stream.as_raw_fd();
        let stream = Patient::new(stream);
        let greeting = server::start(alloc, stream, NoCallback, Some(socket_limits()));
        Ok(Seat {
            stage: Stage::Greeting(greeting),
            socket,
            gate: -1,
            until: now.saturating_add(Duration::from_secs(PATIENCE)),
        })
    }

    /// Whether it may be dropped.
    pub(crate) fn is_over(&self) -> bool {
        matches!(&self.stage, Stage::Over)
    }

    /// Whether there may be something of which poll(2) doesn't know.
    pub(crate) fn is_busy(&self) -> bool {
        match &self.stage {
            Stage::Talking(talk) => !talk.is_idle(),
            Stage::Greeting(_) | Stage::Calling(_, _) | Stage::Over => false,
        }
    }

    /// What poll(2) is asked of the socket, and of the connection to the gateway.
    pub(crate) fn asked(&self) -> [pollfd; 2] {
        match &self.stage {
            Stage::Greeting(_) => [asked(self.socket, POLLIN), asked(-1, 0)],
            Stage::Calling(_, _) => [asked(-1, 0), asked(self.gate, POLLOUT)],
            Stage::Talking(_) => [asked(self.socket, POLLIN), asked(self.gate, POLLIN)],
            Stage::Over => [asked(-1, 0), asked(-1, 0)],
        }
    }

    /// Begins the connection to the gateway.
    fn call<R: Net>(&mut self, rt: &R, gateway: SocketAddr, socket: Socket) -> Stage {
        match mio::net::TcpStream::connect(rt, gateway) {
            Ok(stream) => {
                self.gate = stream.as_raw_fd();
                Stage::Calling(socket, stream)
            }
            Err(_) => close(SocketWire::new(socket)),
        }
    }

    /// Goes on with the handshake.
    fn greet<R: Net>(&mut self, rt: &R, gateway: SocketAddr, greeting: Greeting) -> Stage {
        match greeting.handshake() {
            Ok(socket) => self.call(rt, gateway, socket),
            Err(HandshakeError::Interrupted(greeting)) => Stage::Greeting(greeting),
            Err(HandshakeError::Failure(_)) => Stage::Over,
        }
    }

    /// Goes on where the system has something.
    pub(crate) fn go_on<R: Net>(&mut self, rt: &R, alloc: Global, gateway: SocketAddr) {
        self.stage = match mem::replace(&mut self.stage, Stage::Over) {
            Stage::Greeting(greeting) => self.greet(rt, gateway, greeting),
            Stage::Calling(socket, stream) => join(alloc, socket, stream),
            Stage::Talking(talk) => turn(alloc, talk),
            Stage::Over => Stage::Over,
        }
    }

    /// Ends a socket that should talk by now.
    pub(crate) fn end_if_late(&mut self, now: Duration) {
        match &self.stage {
            Stage::Greeting(_) | Stage::Calling(_, _) => {
                if now >= self.until {
                    self.stage = Stage::Over;
                }
            }
            Stage::Talking(_) | Stage::Over => {}
        }
    }
}
