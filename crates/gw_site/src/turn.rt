//! The entries of a site's log.
ghost use Rattle.std.specs.Prelude.{◌≡◌, ◌++◌, [], ◌∷◌, OnErr, OnOk};

use crate::on_heap::{BoxedSetup, SharedBytes};
use std::alloc::AllocError;
use std::marker::Model;

/// One thing that went in or out.
#[derive(Drop)]
pub enum Turn {
    /// A run begins with this setup.
    Start(BoxedSetup),
    OpenFailed,
    /// The site was polled; the turn of what it brought, if it brought anything, comes next.
    Polled {
        now: i64,
    },
    Opened {
        till: u64,
    },
    HeardTill {
        till: u64,
        bytes: SharedBytes,
    },
    /// The till closed its connection.
    Closed {
        till: u64,
    },
    HeardPt {
        pt: u16,
        bytes: SharedBytes,
    },
    /// The terminal's connection is lost.
    Lost {
        pt: u16,
    },
    /// The run is to end.
    Stopped,
    Linked {
        pt: u16,
    },
    LinkFailed {
        pt: u16,
    },
    /// Where `ok` is false, only these bytes were taken of those that were to be sent.
    SentTill {
        till: u64,
        bytes: SharedBytes,
        ok: bool,
    },
    /// Where `ok` is false, only these bytes were taken of those that were to be sent.
    SentPt {
        pt: u16,
        bytes: SharedBytes,
        ok: bool,
    },
    CutTill {
        till: u64,
    },
    CutPt {
        pt: u16,
    },
    Wrote {
        pos: u64,
        bytes: SharedBytes,
    },
    Synced,
    DiskFailed,
    /// The power failed and left this file.
    Crash {
        file: SharedBytes,
    },
}

/// The turns of a log, oldest first. A contract sees a list.
#[derive(Drop)]
pub struct Turns {
    inner: Vec<Turn>,
}

impl Model for Turns {
    ghost use Rattle.std.specs.Prelude.{List};
    ghost use Rattle.gw_site.specs.declared.turn.Turn.{Turn};

    ghost Value = { List Turn };

    ghost view = { λ turns. turns.inner.items };
}

impl Turns {
    /// The turns of this vector.
    pub fn new(inner: Vec<Turn>) -> Turns
        ensures { result ≡ inner.items }
    {
        Turns { inner }
    }

    /// Appends a turn; nothing where there is no memory.
    pub fn push(&mut self, turn: Turn) -> Result<(), AllocError>
        ensures ok { OnOk result (self.new ≡ self.old ++ turn ∷ []) }
        ensures err { OnErr result (self.new ≡ self.old) }
    {
        self.inner.push(turn)?;
        Ok(())
    }

    /// The vector.
    pub fn inner(&self) -> &Vec<Turn>
        ensures { result.now.items ≡ self.now }
    {
        &self.inner
    }

    /// The turns as a slice.
    pub fn as_slice(&self) -> &[Turn]
        ensures { result.now ≡ self.now }
    {
        &self.inner
    }
}
