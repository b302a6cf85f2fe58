//! The till of the pair run: one request on a connection of its own, and the reply to it.
ghost use Rattle.std.specs.Prelude.{◌≡◌, ◌≤◌, IfOk, length};

use gw_base::{Condition, Ident};
use gw_bytes::{LONGEST_CHUNK, LONGEST_PAYLOAD};
use gw_site::Failed;
use sale_frame::{FrameReader, frame_length};
use sale_msg::write_request;
use sale_reply::ReplyResult;
use sale_seen::{ReplySeen, read_reply};
use sale_values::{Class, Header, Kind, PaymentAsk, Reference, SaleRequest};
use std::alloc::{AllocError, Global};
use std::io::{self, ErrorKind, Read, Write};
use std::net::{SocketAddr, TcpStream};

/// What is paid, in minor units.
pub(crate) const AMOUNT: u64 = 1_099;

/// Reads what has come by now, and returns how many bytes that is, perhaps none. It fails once the connection has ended.
pub(crate) fn read_now(stream: &TcpStream, buf: &mut [u8; LONGEST_CHUNK]) -> Result<usize, Failed>
    ensures count { IfOk result (λ count. count ≤ 4096) }
    ensures buf { length buf.new ≡ 4096 }
{
    let mut reader = stream;
    match reader.read(buf) {
        Ok(0) => Err(Failed),
        Ok(count) => Ok(count),
        Err(error) => match error.kind() {
            ErrorKind::WouldBlock | ErrorKind::Interrupted => Ok(0),
            _ => Err(Failed),
        },
    }
}

/// Sets a connection so that a read returns at once, and that what is written is sent at once.
pub(crate) fn set_up(stream: &TcpStream) -> io::Result<()> {
    stream.set_nonblocking(true)?;
    stream.set_nodelay(true)
}

/// The header of a request of the till.
fn header(category: &[u8], service: &[u8]) -> Option<Header> {
    Some(Header {
        class: Class::Service,
        category: Ident::of(category)?,
        kind: Kind::Request,
        service: Some(Ident::of(service)?),
        device: None,
        sale: Ident::of(b"S1")?,
        poi: Ident::of(b"T1")?,
    })
}

/// The payment.
fn payment() -> Option<(Header, SaleRequest)> {
    let ask = PaymentAsk {
        transaction: Ident::of(b"1")?,
        stamp: Ident::of(b"2025-03-07T10:11:04+00:00")?,
        currency: *b"EUR",
        amount: AMOUNT,
        kind: None,
    };
    Some((header(b"Payment", b"1")?, SaleRequest::Payment(ask)))
}

/// The request for the payment's status.
fn status() -> Option<(Header, SaleRequest)> {
    let reference = Reference {
        service: Ident::of(b"1")?,
        sale: None,
        poi: None,
    };
    Some((
        header(b"TransactionStatus", b"2")?,
        SaleRequest::Status(Some(reference)),
    ))
}

/// The frame of a request; empty where there is none.
fn framed(alloc: Global, asked: Option<(Header, SaleRequest)>) -> Result<Vec<u8>, AllocError> {
    let mut frame = Vec::new(alloc);
    if let Some((header, request)) = asked {
        let mut payload = Vec::new(alloc);
        write_request(alloc, &header, &request, &mut payload)?;
        let length = payload.len().clamp(1, LONGEST_PAYLOAD as usize);
        frame.extend_from_slice(&frame_length(length))?;
        frame.extend_from_slice(&payload)?;
    }
    Ok(frame)
}

/// The frame of the payment.
pub(crate) fn payment_frame(alloc: Global) -> Result<Vec<u8>, AllocError> {
    framed(alloc, payment())
}

/// The frame of the request for its status.
pub(crate) fn status_frame(alloc: Global) -> Result<Vec<u8>, AllocError> {
    framed(alloc, status())
}

/// What the gateway has said of the payment.
#[derive(Clone, Copy, Debug, PartialEq, Eq)]
pub(crate) enum Said {
    Nothing,
    Success,
    Failure,
}

impl Said {
    /// The word that is printed.
    pub(crate) fn name(self) -> &'static str {
        match self {
            Said::Nothing => "nothing",
            Said::Success => "Success",
            Said::Failure => "Failure",
        }
    }
}

/// What a reply to the request for the status says; nothing where the payment is in progress.
pub(crate) fn said_by(reply: &ReplySeen) -> Said {
    if reply.condition == Some(Condition::InProgress) {
        Said::Nothing
    } else if reply.result == ReplyResult::Success && reply.minor == Some(AMOUNT) {
        Said::Success
    } else {
        Said::Failure
    }
}

/// What a till awaits.
#[derive(Drop)]
pub(crate) enum Awaited {
    Reply(ReplySeen),
    Nothing,
    /// The connection has ended, or what came is no reply.
    End,
}

/// A connection on which one request was sent.
#[derive(Drop)]
pub(crate) struct Till {
    stream: TcpStream,
    reader: FrameReader,
}

/// Connects, and sends a request.
fn send(rt: &HostRuntime, address: SocketAddr, request: &[u8]) -> io::Result<TcpStream> {
    let mut stream = TcpStream::connect(rt, address)?;
    set_up(&stream)?;
    stream.write_all(request)?;
    Ok(stream)
}

impl Till {
    /// Sends a request on a new connection; nothing where there is none.
    pub(crate) fn ask(
        rt: &HostRuntime,
        address: SocketAddr,
        request: &[u8],
    ) -> Result<Option<Till>, AllocError> {
        let reader = FrameReader::new(rt.alloc())?;
        match send(rt, address, request) {
            Ok(stream) => Ok(Some(Till { stream, reader })),
            Err(_) => Ok(None),
        }
    }

    /// The reply in the bytes that came so far.
    fn reply(&mut self, alloc: Global) -> Awaited {
        match self.reader.next() {
            Ok(None) => Awaited::Nothing,
            Ok(Some(payload)) => reply_in(alloc, payload),
            Err(_) => Awaited::End,
        }
    }

    /// What has come by now.
    pub(crate) fn poll(&mut self, alloc: Global) -> Result<Awaited, AllocError> {
        let mut buf = [0; LONGEST_CHUNK];
        match read_now(&self.stream, &mut buf) {
            Ok(count) => {
                self.reader.feed(alloc, &buf[..count])?;
                Ok(self.reply(alloc))
            }
            Err(Failed) => Ok(Awaited::End),
        }
    }
}

/// The reply that a payload is.
fn reply_in(alloc: Global, payload: &[u8]) -> Awaited {
    let Ok(tree) = json_text::read(alloc, payload) else {
        return Awaited::End;
    };
    match read_reply(&tree) {
        Ok(reply) => Awaited::Reply(reply),
        Err(_) => Awaited::End,
    }
}
