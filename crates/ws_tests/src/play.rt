//! Bridges over a socket on a stream in memory and a connection to the gateway in memory.
use gw_base::Bytes;
use sale_ws::{Bridge, Got, Gots, MemGate, MemWire, Pieces, SocketWire, socket_limits};
use std::alloc::{AllocError, Global};
use tungstenite::{Duplex, NoMask, Role, WebSocket};

/// A stream of bytes that keeps what is written.
pub(crate) type Stream<'a> = Duplex<&'a [u8], Vec<u8>>;

pub(crate) type Played<'a> = Bridge<SocketWire<Stream<'a>>, MemGate>;

/// A socket of a server whose peer sends these bytes.
pub(crate) fn socket(alloc: Global, bytes: &[u8]) -> SocketWire<Stream<'_>> {
    let stream = Duplex {
        reader: bytes,
        writer: Vec::new(alloc),
    };
    SocketWire::new(WebSocket::from_raw_socket(
        alloc,
        stream,
        NoMask,
        Role::Server,
        Some(socket_limits()),
    ))
}

/// A gateway that sends nothing.
pub(crate) fn silent(alloc: Global, fails: Option<u64>) -> MemGate {
    MemGate::new(alloc, Pieces::new(Vec::new(alloc)), fails)
}

/// A socket in memory that gives `{}`.
pub(crate) fn one_message(alloc: Global, fails: Option<u64>) -> Result<MemWire, AllocError> {
    let mut gots = Vec::new(alloc);
    gots.push(Got::Message(Bytes::copied(alloc, b"{}")?))?;
    Ok(MemWire::new(alloc, Gots::new(gots), fails))
}

/// A gateway that sends four bytes, and then nothing.
pub(crate) fn four(alloc: Global, bytes: [u8; 4]) -> Result<MemGate, AllocError> {
    let mut pieces = Vec::new(alloc);
    pieces.push(Some(Bytes::copied(alloc, &bytes)?))?;
    Ok(MemGate::new(alloc, Pieces::new(pieces), None))
}

/// A gateway that sends the frame of `{}` in two chunks, with nothing there between them.
pub(crate) fn two_chunks(alloc: Global) -> Result<MemGate, AllocError> {
    let mut pieces = Vec::new(alloc);
    pieces.push(Some(Bytes::copied(alloc, &[0x00, 0x00, 0x00])?))?;
    pieces.push(Some(Bytes::copied(alloc, &[0x02, 0x7B, 0x7D])?))?;
    Ok(MemGate::new(alloc, Pieces::new(pieces), None))
}

/// What the gateway has.
pub(crate) fn at_gateway<'a>(bridge: &'a Played<'_>) -> &'a [u8] {
    bridge.gate().sent().as_slice()
}

/// What the socket's peer has.
pub(crate) fn at_peer<'a>(bridge: &'a Played<'_>) -> &'a [u8] {
    &bridge.wire().socket().get_ref().writer
}
