//! A socket of the kit's WebSocket crate.
ghost use Rattle.std.specs.Prelude.{◌≡◌, IfOk, Some, None};
ghost use Rattle.sale_ws.specs.Kit.{ClosesSocket, IsReadError, IsGotOf, got_of as GotOf, ReadsSocket, SendsSocket};
ghost use Rattle.sale_ws.specs.Socket.{HasWireCause};

use crate::wire::{Got, Wire, WireFault};
use gw_base::Bytes;
use std::alloc::{AllocError, Global};
use std::io::{ErrorKind, Read, Write};
use tungstenite::{Error, Message, NoMask, WebSocket, WebSocketConfig};

/// The most bytes of a message that a socket reads. It is above what a frame of the gateway's connection holds, so that a till hears
/// that its message is too long and not that its socket has failed; and far below what the kit's crate takes by default, 64 MiB.
const LONGEST_MESSAGE: usize = 131_072;

/// How many bytes one read of the socket's stream asks for.
const READ_AT_ONCE: usize = 4_096;

/// The most bytes that may wait to be sent.
const MOST_WAITING_TO_BE_SENT: usize = 1_048_576;

/// The limits of a socket, for its handshake.
pub fn socket_limits() -> WebSocketConfig
    ensures message { result.max_message_size ≡ Some 131072 }
    ensures frame { result.max_frame_size ≡ Some 131072 }
{
    WebSocketConfig::default()
        .max_message_size(Some(LONGEST_MESSAGE))
        .max_frame_size(Some(LONGEST_MESSAGE))
        .read_buffer_size(READ_AT_ONCE)
        .max_write_buffer_size(MOST_WAITING_TO_BE_SENT)
}

/// What a message of the kit's crate is to a bridge.
fn got_of(alloc: Global, message: &Message) -> Result<Got, AllocError>
    ensures { IfOk result (λ got. got ≡ GotOf message.now) }
{
    match message {
        Message::Text(text) => Ok(Got::Message(Bytes::copied(alloc, text.as_str().as_bytes())?)),
        Message::Binary(bytes) => Ok(Got::Message(Bytes::copied(alloc, bytes.as_slice())?)),
        Message::Ping(_) | Message::Pong(_) => Ok(Got::Control),
        Message::Close(_) => Ok(Got::End),
    }
}

/// What a read of the kit's crate that failed is to a bridge.
fn end_of(error: &Error) -> Result<Got, WireFault>
    ensures { IsReadError error.now result }
{
    match error {
        Error::ConnectionClosed => Ok(Got::End),
        Error::OutOfMemory => Err(WireFault::Memory),
        Error::Io(cause) => {
            if cause.kind() == ErrorKind::WouldBlock {
                Ok(Got::Nothing)
            } else {
                Err(WireFault::Failed)
            }
        }
        Error::AlreadyClosed
        | Error::Capacity(_)
        | Error::Protocol(_)
        | Error::WriteBufferFull
        | Error::Utf8
        | Error::AttackAttempt
        | Error::Handshake(_)
        | Error::HandshakeIncomplete
        | Error::JunkAfterRequest
        | Error::CustomResponseSuccessful
        | Error::Url
        | Error::Http(_)
        | Error::Refused(_) => Err(WireFault::Failed),
    }
}

/// What a read of the kit's crate is to a bridge.
fn taken(alloc: Global, read: Result<Message, Error>) -> Result<Got, WireFault>
    ensures { IsGotOf read result }
{
    match read {
        Ok(message) => match got_of(alloc, &message) {
            Ok(got) => Ok(got),
            Err(AllocError) => Err(WireFault::Memory),
        },
        Err(error) => end_of(&error),
    }
}

/// The server's end of a WebSocket whose handshake is done. What it reads and writes is what the kit's crate says of the stream.
#[derive(Drop)]
pub struct SocketWire<S: Read + Write + Drop> {
    socket: WebSocket<S, NoMask>,
    faults: u64,
}

impl<S: Read + Write + Drop> SocketWire<S> {
    /// A socket of a till.
    pub fn new(socket: WebSocket<S, NoMask>) -> SocketWire<S>
        ensures socket { result.socket ≡ socket }
        ensures faults { result.faults ≡ 0 }
    {
        SocketWire { socket, faults: 0 }
    }

    /// The socket of the kit's crate.
    pub fn socket(&self) -> &WebSocket<S, NoMask>
        ensures { result.now ≡ self.now.socket }
    {
        &self.socket
    }

    /// Sends a close frame, or the reply to the peer's, and what else waits to be sent, as far as the stream takes it. After it the
    /// socket is only dropped.
    pub fn close(&mut self)
        ensures socket { ClosesSocket S.contents self.old.socket self.new.socket }
        ensures faults { self.new.faults ≡ self.old.faults }
    {
        match self.socket.close(None) {
            Ok(()) => {}
            Err(_) => {}
        }
    }

    /// The result of a call, whose failure is counted.
    fn counted<T>(&mut self, done: Result<T, WireFault>) -> Result<T, WireFault>
        ensures same { result ≡ done }
        ensures cause { HasWireCause self.old.faults self.new.faults result }
        ensures socket { self.new.socket ≡ self.old.socket }
    {
        if matches!(done, Err(WireFault::Failed)) {
            self.faults = self.faults.saturating_add(1);
        }
        done
    }
}

impl<S: Read + Write + Drop> Wire for SocketWire<S> {
    ghost observed = { λ wire. record { left = None; sent = None; faults = wire.faults } };

    ghost reads = { λ old new result. ReadsSocket S.remaining old.socket new.socket result };

    ghost sends = { λ old new message result. SendsSocket S.contents old.socket new.socket message result };

    fn read(&mut self, alloc: Global) -> Result<Got, WireFault> {
        let read = self.socket.read();
        let got = taken(alloc, read);
        self.counted(got)
    }

    fn send(&mut self, alloc: Global, message: &[u8]) -> Result<(), WireFault> {
        let Ok(message) = Message::binary(alloc, message) else {
            return Err(WireFault::Memory);
        };
        match self.socket.send(message) {
            Ok(()) => Ok(()),
            Err(Error::OutOfMemory) => Err(WireFault::Memory),
            Err(_) => self.counted(Err(WireFault::Failed)),
        }
    }
}
