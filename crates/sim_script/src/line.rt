//! The lines of a script.
ghost use Rattle.std.specs.Prelude.{length};
ghost use Rattle.gw_site.specs.Turns.{IsCount};

use gw_base::{Bytes, Ident, Pt, Pts, Setup, Text};
use gw_site::SharedBytes;
use std::alloc::{AllocError, Global};

/// A script: what its setup lines give, and the lines that are played.
#[derive(Drop)]
pub struct Script {
    pub given: Given,
    pub lines: Vec<ScriptLine>,
}

/// What the setup lines give: each of the first four where a line gives it, and the terminals in order.
#[derive(Drop)]
pub struct Given {
    /// The gateway's name.
    pub name: Option<Ident<40>>,
    /// How many requests may wait for one terminal.
    pub queue: Option<u8>,
    /// How long a request may wait, in seconds.
    pub wait: Option<u32>,
    /// How many records the journal holds.
    pub slots: Option<u32>,
    pub terminals: Vec<Pt>,
}

/// A setup line.
#[derive(Drop)]
pub enum SetupLine {
    Name(Ident<40>),
    Queue(u8),
    Wait(u32),
    Slots(u32),
    Terminal(Pt),
}

/// A line that is played.
#[derive(Drop)]
pub enum ScriptLine {
    /// The moment of later polls, in seconds since 1970-01-01T00:00:00Z.
    At(i64),
    /// A poll, and what it brings.
    Poll(ScriptEvent),
    /// The next call of this kind fails.
    Fail(FailingCall),
    /// The power fails after so many more calls, and leaves this.
    Power(u64, ImageKind),
    /// A power failure that was set and has no effect yet is forgotten. No text has this line.
    ForgetPower,
}

/// What a poll brings.
#[derive(Drop)]
pub enum ScriptEvent {
    /// The till of this number opens its connection.
    Open(u64),
    /// The till of this number closes it.
    Close(u64),
    /// Bytes of the till of this number come.
    FromTill(u64, Chunk),
    /// Bytes of the terminal of this number come.
    FromPt(u16, Chunk),
    /// The connection of the terminal of this number is lost.
    Lose(u16),
    /// Nothing.
    Tick,
}

/// A call that fails.
#[derive(Clone, Copy)]
pub enum FailingCall {
    Open,
    Link(u16),
    /// A send to this till, which takes at most so many bytes.
    SendTill(u64, u64),
    /// A send to this terminal, which takes at most so many bytes.
    SendPt(u16, u64),
    Write,
    Sync,
    Length,
    Read,
}

/// What a power failure leaves of the file.
#[derive(Clone, Copy)]
pub enum ImageKind {
    /// The file of the last sync.
    Old,
    /// The file with all writes.
    New,
    /// The file with all writes, with this byte wherever one was written since the last sync.
    Junk(u8),
}

/// What comes at once: 1 to 4,096 bytes.
#[derive(Drop)]
pub struct Chunk {
    bytes: SharedBytes,
    pub ghost within: { IsCount (length bytes) },
}

impl Chunk {
    ghost use Rattle.std.specs.Prelude.{◌≡◌, IfOk};

    /// A chunk of these bytes.
    pub fn new(alloc: Global, bytes: Bytes) -> Result<Chunk, AllocError>
        requires { IsCount (length bytes) }
        ensures { IfOk result (λ chunk. chunk.bytes ≡ bytes) }
    {
        let bytes = SharedBytes::new(alloc, bytes)?;
        Ok(Chunk { bytes })
    }

    /// The bytes, which one more holds.
    pub fn share(&self) -> Result<SharedBytes, AllocError>
        ensures { IfOk result (λ shared. shared ≡ self.now.bytes) }
    {
        self.bytes.share()
    }

    /// The bytes.
    pub fn as_slice(&self) -> &[u8]
        ensures bytes { result.now ≡ self.now.bytes }
        ensures within { IsCount (length result.now) }
    {
        self.bytes.as_slice()
    }
}

impl Given {
    ghost use Rattle.std.specs.Prelude.{◌≡◌, IfOk};
    ghost use Rattle.gw_script.specs.site.ScriptLine.{setup_of};
    ghost use Rattle.sim_script.specs.Values.{given_value};

    /// A copy of the setup that the lines give, with the defaults where they give nothing.
    pub fn setup(&self, alloc: Global) -> Result<Setup, AllocError>
        ensures { IfOk result (λ setup. setup ≡ setup_of (given_value self.now)) }
    {
        Ok(Setup {
            name: self.name.unwrap_or(Ident::known(b"GATEWAY")),
            listen: Text::new(String::new(alloc)),
            journal: Text::new(String::new(alloc)),
            line: self.queue.unwrap_or(0),
            wait: self.wait.unwrap_or(60),
            slots: self.slots.unwrap_or(1_000_000),
            terminals: Pts::new(self.terminals.clone()?),
        })
    }
}
