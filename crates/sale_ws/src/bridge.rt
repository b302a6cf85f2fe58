//! A bridge: one socket of a till joined to one connection of the gateway.
ghost use Rattle.std.specs.Prelude.{◌≡◌, ◌≤◌, ◌↔◌, true, false, [], length, IfOk, Ok, Err};
ghost use Rattle.gw_site.specs.Streams.{AddsTo};
ghost use Rattle.sale_frame.specs.Grammar.{frame};
ghost use Rattle.sale_ws.specs.Gateway.{NotAsked};
ghost use Rattle.sale_ws.specs.Turn.{Delivery, Delivers, HasCauseOf, IsTurnOf, framed, has_frame as HasFrame};
ghost use Rattle.sale_ws.specs.inner.Steps.{ChunkDelivered, DeliversFirst, Hears, IsDelivering, IsPassed};
ghost use Rattle.sale_ws.specs.declared.fault.BridgeFault.TheVariants.{Gate as GateFault, Socket as SocketFault};
ghost use Rattle.sale_ws.specs.declared.wire.Got.TheVariants.{End as TheEnd, Message as TheMessage, Nothing as NothingNow};

use crate::fault::BridgeFault;
use crate::gate::Gate;
use crate::wire::{Got, Wire, WireFault};
use gw_bytes::{FRAME_LENGTH_SIZE, LONGEST_CHUNK, LONGEST_PAYLOAD};
use gw_site::Failed;
use sale_frame::{FrameReader, frame_length};
use std::alloc::{AllocError, Global};

/// What a turn led to.
#[derive(Clone, Copy, Debug, PartialEq, Eq)]
pub enum Bridged {
    /// The bridge goes on.
    Went,
    /// The socket or the gateway has ended.
    Ended,
}

/// What a read of the gateway's connection brought.
#[derive(Clone, Copy)]
enum Hearing {
    Nothing,
    Messages,
    Ended,
}

/// Whether a read of the socket gave the end.
fn is_end(got: &Got) -> bool
    ensures { (result ≡ true) ↔ (got.now ≡ TheEnd) }
{
    match got {
        Got::End => true,
        Got::Message(_) | Got::Control | Got::Nothing => false,
    }
}

/// Whether a read of the socket found nothing.
fn is_nothing(got: &Got) -> bool
    ensures { (result ≡ true) ↔ (got.now ≡ NothingNow) }
{
    match got {
        Got::Nothing => true,
        Got::Message(_) | Got::Control | Got::End => false,
    }
}

/// Whether a message has a frame.
fn has_frame(message: &[u8]) -> bool
    ensures { result ≡ HasFrame message.now }
{
    0 < message.len() && message.len() <= LONGEST_PAYLOAD as usize
}

/// The frame of a message.
fn frame_of(alloc: Global, message: &[u8]) -> Result<Vec<u8>, AllocError>
    requires { HasFrame message.now ≡ true }
    ensures { IfOk result (λ bytes. bytes.items ≡ frame message.now) }
{
    let mut bytes = Vec::with_capacity(alloc, FRAME_LENGTH_SIZE + message.len())?;
    bytes.extend_from_slice(&frame_length(message.len()))?;
    bytes.extend_from_slice(message)?;
    Ok(bytes)
}

/// Sends the gateway a message of the socket, as one frame and in one write.
fn pass_message<G: Gate>(gate: &mut G, alloc: Global, message: &[u8]) -> Result<(), BridgeFault>
    ensures sent { AddsTo (G.observed gate.old).sent (G.observed gate.new).sent
        (framed (Ok (TheMessage message.now))) result }
    ensures left { (G.observed gate.new).left ≡ (G.observed gate.old).left }
    ensures passed { IsPassed (TheMessage message.now) result }
    ensures cause { HasCauseOf GateFault (G.observed gate.old).faults (G.observed gate.new).faults result }
{
    if !has_frame(message) {
        return Err(BridgeFault::Length {
            length: message.len() as u64,
        });
    }
    let frame = match frame_of(alloc, message) {
        Ok(frame) => frame,
        Err(AllocError) => return Err(BridgeFault::Memory),
    };
    match gate.write(&frame) {
        Ok(()) => Ok(()),
        Err(Failed) => Err(BridgeFault::Gate),
    }
}

/// Sends the gateway what a read of the socket gave, if it is a message.
fn pass_on<G: Gate>(gate: &mut G, alloc: Global, got: &Got) -> Result<(), BridgeFault>
    ensures sent { AddsTo (G.observed gate.old).sent (G.observed gate.new).sent (framed (Ok got.now)) result }
    ensures left { (G.observed gate.new).left ≡ (G.observed gate.old).left }
    ensures passed { IsPassed got.now result }
    ensures cause { HasCauseOf GateFault (G.observed gate.old).faults (G.observed gate.new).faults result }
{
    match got {
        Got::Message(message) => pass_message(gate, alloc, message.as_slice()),
        Got::Control | Got::Nothing | Got::End => Ok(()),
    }
}

/// Sends the socket the first message that waits, if one is complete. False where less than a frame waits.
fn deliver_first<W: Wire>(
    wire: &mut W,
    reader: &mut FrameReader,
    alloc: Global,
) -> Result<bool, BridgeFault>
    ensures first { DeliversFirst W.observed W.sends wire.old wire.new reader.old reader.new result }
    ensures left { (W.observed wire.new).left ≡ (W.observed wire.old).left }
    ensures cause { HasCauseOf SocketFault (W.observed wire.old).faults (W.observed wire.new).faults result }
{
    match reader.next() {
        Err(_) => Err(BridgeFault::Frame),
        Ok(None) => Ok(false),
        Ok(Some(message)) => match wire.send(alloc, message) {
            Ok(()) => Ok(true),
            Err(WireFault::Failed) => Err(BridgeFault::Socket),
            Err(WireFault::Memory) => Err(BridgeFault::Memory),
        },
    }
}

/// Sends the socket each message that is complete, until less than a frame waits.
fn deliver<W: Wire>(
    wire: &mut W,
    reader: &mut FrameReader,
    alloc: Global,
) -> Result<(), BridgeFault>
    ensures delivered { (delivery : Delivery) × (delivery.heard ≡ NotAsked)
        × Delivers W.observed W.sends wire.old wire.new reader.old delivery
        × IsDelivering result reader.new delivery }
    ensures cause { HasCauseOf SocketFault (W.observed wire.old).faults (W.observed wire.new).faults result }
{
    loop {
        match deliver_first(wire, reader, alloc) {
            Ok(true) => {}
            Ok(false) => return Ok(()),
            Err(fault) => return Err(fault),
        }
    }
}

/// Takes a chunk of the gateway's bytes, and sends the socket the messages that are complete with it. An empty chunk is the end.
fn bring<W: Wire>(
    wire: &mut W,
    reader: &mut FrameReader,
    alloc: Global,
    chunk: &[u8],
) -> Result<Hearing, BridgeFault>
    requires { length chunk.now ≤ 4096 }
    ensures brought { (delivery : Delivery)
        × ChunkDelivered W.observed W.sends wire.old wire.new reader.old reader.new chunk.now result delivery }
    ensures cause { HasCauseOf SocketFault (W.observed wire.old).faults (W.observed wire.new).faults result }
    ensures fault { ¬ (result ≡ Err GateFault) }
{
    if chunk.is_empty() {
        return Ok(Hearing::Ended);
    }
    match reader.feed(alloc, chunk) {
        Ok(()) => {}
        Err(AllocError) => return Err(BridgeFault::Memory),
    }
    match deliver(wire, reader, alloc) {
        Ok(()) => Ok(Hearing::Messages),
        Err(fault) => Err(fault),
    }
}

/// One read of the gateway's connection; what it brings goes to the socket.
fn hear<W: Wire, G: Gate>(
    gate: &mut G,
    wire: &mut W,
    reader: &mut FrameReader,
    alloc: Global,
) -> Result<Hearing, BridgeFault>
    ensures heard { (delivery : Delivery)
        × Hears W.observed W.sends (G.observed gate.old).left (G.observed gate.new).left
        wire.old wire.new reader.old reader.new result delivery }
    ensures sent { (G.observed gate.new).sent ≡ (G.observed gate.old).sent }
    ensures gate { HasCauseOf GateFault (G.observed gate.old).faults (G.observed gate.new).faults result }
    ensures wire { HasCauseOf SocketFault (W.observed wire.old).faults (W.observed wire.new).faults result }
{
    let mut buf = [0; LONGEST_CHUNK];
    match gate.read(&mut buf) {
        Ok(Some(count)) => bring(wire, reader, alloc, &buf[..count]),
        Ok(None) => Ok(Hearing::Nothing),
        Err(Failed) => Err(BridgeFault::Gate),
    }
}

/// One socket and one connection of the gateway, and a reader of what the gateway sends.
#[derive(Drop)]
pub struct Bridge<W: Wire + Drop, G: Gate + Drop> {
    wire: W,
    gate: G,
    /// Contracts see the bytes of the gateway that wait: those that aren't a whole message yet.
    reader: FrameReader,
    is_idle: bool,
}

impl<W: Wire + Drop, G: Gate + Drop> Bridge<W, G> {
    /// A bridge on which nothing has come yet. Where there is no memory both are dropped.
    pub fn new(alloc: Global, wire: W, gate: G) -> Result<Bridge<W, G>, AllocError>
        ensures { IfOk result (λ bridge. bridge ≡ record { wire = wire; gate = gate; reader = []; is_idle = false }) }
    {
        Ok(Bridge {
            wire,
            gate,
            reader: FrameReader::new(alloc)?,
            is_idle: false,
        })
    }

    /// Whether both reads of the last turn found nothing. If so, the next turn can wait until bytes come on one of the two streams.
    pub fn is_idle(&self) -> bool
        ensures { result ≡ self.now.is_idle }
    {
        self.is_idle
    }

    /// The socket.
    pub fn wire(&self) -> &W
        ensures { result.now ≡ self.now.wire }
    {
        &self.wire
    }

    /// The connection to the gateway.
    pub fn gate(&self) -> &G
        ensures { result.now ≡ self.now.gate }
    {
        &self.gate
    }

    /// The socket, without the connection to the gateway.
    pub fn into_wire(self) -> W
        ensures { result ≡ self.wire }
    {
        self.wire
    }

    /// One read of the socket and, unless that gave the end, one read of the gateway's connection. A message of the socket of 1 to 65,536
    /// bytes is sent to the gateway as one frame, and each message that the gateway's bytes complete is sent to the socket, in order.
    ///
    /// The turn ends at the first fault that it meets. After a fault the bridge is only dropped.
    pub fn turn(&mut self, alloc: Global) -> Result<Bridged, BridgeFault>
        ensures turn { IsTurnOf W.observed W.reads W.sends G.observed self.old self.new result }
        ensures gate { HasCauseOf GateFault (G.observed self.old.gate).faults (G.observed self.new.gate).faults result }
        ensures socket { HasCauseOf SocketFault (W.observed self.old.wire).faults (W.observed self.new.wire).faults result }
    {
        self.is_idle = false;
        let got = match self.wire.read(alloc) {
            Ok(got) => got,
            Err(WireFault::Failed) => return Err(BridgeFault::Socket),
            Err(WireFault::Memory) => return Err(BridgeFault::Memory),
        };
        if is_end(&got) {
            return Ok(Bridged::Ended);
        }
        match pass_on(&mut self.gate, alloc, &got) {
            Ok(()) => {}
            Err(fault) => return Err(fault),
        }
        match hear(&mut self.gate, &mut self.wire, &mut self.reader, alloc) {
            Ok(Hearing::Nothing) => {
                self.is_idle = is_nothing(&got);
                Ok(Bridged::Went)
            }
            Ok(Hearing::Messages) => Ok(Bridged::Went),
            Ok(Hearing::Ended) => Ok(Bridged::Ended),
            Err(fault) => Err(fault),
        }
    }
}
