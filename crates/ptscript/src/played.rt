//! The terminal that is played, with its plays: how it reacts on a link, and what is printed of its book.
ghost use Rattle.std.specs.Prelude.{◌≡◌, ◌≢◌, ◌<◌, ◌≤◌, ◌∷◌, List, ℕ, IfOk, OnOk, OnErr, length};
ghost use Rattle.std.specs.Bool.{OnTrue};
ghost use Rattle.gw_base.specs.Setup.{IsPt};
ghost use Rattle.gw_bytes.specs.Bytes.{IsPrefix};
ghost use Rattle.pt_core.specs.History.{Setting, Met, NewLink, terminal_after};
ghost use Rattle.ptscript.specs.inner.Link.{Reacts, IsHeard, ServesLink};

use crate::book_line::print_entry;
use crate::fault::Fault;
use crate::words::NamedPlay;
use gw_base::{Currency, Ident, Pt, Text};
use gw_bytes::LONGEST_CHUNK;
use gw_site::{Failed, Sink, Source};
use pt_core::{BookEntry, Play, Plays, Terminal};
use std::alloc::{AllocError, Global};
use zvt_apdu::law_decode_apdus;

/// The result code by which the terminal says that it has no transaction.
const NONE: u8 = 131;

/// How a link is.
#[derive(Clone, Copy, Debug, PartialEq, Eq)]
pub(crate) enum LinkState {
    /// It goes on.
    Open,
    /// The gateway has closed the connection.
    ClosedByGateway,
    /// The terminal cuts it.
    CutByTerminal,
    /// A read or a write has failed.
    Failed,
}

/// A terminal with the plays that were named.
#[derive(Drop)]
pub(crate) struct PlayedTerminal {
    alloc: Global,
    terminal: Terminal,
    /// Whether it is silent, of each play that drops the connection.
    silences: Vec<bool>,
    /// How many connections it has dropped.
    drops: usize,
    /// How many turns are left. Each waits for a link, or for bytes.
    turns: u64,
    /// How many entries of the book were printed.
    printed: usize,
}

/// The plays, as the terminal has them.
fn plays_of(alloc: Global, named: &[NamedPlay]) -> Result<Plays, AllocError> {
    let mut plays = Vec::new(alloc);
    for named in named {
        plays.push(named.play)?;
    }
    Ok(Plays::new(plays))
}

/// Whether the terminal is silent, of each play that drops the connection.
fn silences_of(alloc: Global, named: &[NamedPlay]) -> Result<Vec<bool>, AllocError> {
    let mut silences = Vec::new(alloc);
    for named in named {
        if named.play == Play::DropAtOnce {
            silences.push(named.is_silent)?;
        }
    }
    Ok(silences)
}

/// The setup of the terminal. Of the setup it takes the result code alone.
fn setup(alloc: Global) -> Pt
    ensures { IsPt result }
{
    Pt {
        poi: Ident::known(b"T1"),
        address: Text::new(String::new(alloc)),
        password: [0; 3],
        currency: Currency::Eur,
        config: 0,
        none: NONE,
        answer: 5,
        command: 180,
    }
}

impl PlayedTerminal {
    /// A terminal that has met nothing yet.
    pub(crate) fn new(alloc: Global, plays: Vec<NamedPlay>) -> Result<PlayedTerminal, AllocError> {
        let silences = silences_of(alloc, &plays)?;
        let terminal = Terminal::new(alloc, &setup(alloc), plays_of(alloc, &plays)?)?;
        Ok(PlayedTerminal {
            alloc,
            terminal,
            silences,
            drops: 0,
            turns: u64::MAX,
            printed: 0,
        })
    }

    /// The book.
    pub(crate) fn book(&self) -> &[BookEntry] {
        self.terminal.book().as_slice()
    }

    /// Takes one of the turns that are left, or returns that none is.
    pub(crate) fn takes_turn(&mut self) -> bool
        ensures fewer { OnTrue result (self.new.turns < self.old.turns) }
        ensures turns { self.new.turns ≤ self.old.turns }
        ensures terminal { self.new.terminal ≡ self.old.terminal }
    {
        match self.turns.checked_sub(1) {
            Some(left) => {
                self.turns = left;
                true
            }
            None => false,
        }
    }

    /// Begins a link.
    pub(crate) fn begin_link(&mut self)
        ensures link { (setting : Setting) (met : List Met) → self.old.terminal ≡ terminal_after setting met
            → self.new.terminal ≡ terminal_after setting (NewLink ∷ met) }
        ensures turns { self.new.turns ≡ self.old.turns }
    {
        self.terminal.on_link();
    }

    /// Whether the connection stays open where the terminal has cut it, and so many entries were booked before. A terminal that
    /// cuts it and books nothing has dropped it, by the next of its plays that does so.
    fn keeps_silent(&mut self, is_cut: bool, booked: usize) -> bool
        ensures terminal { self.new.terminal ≡ self.old.terminal }
        ensures turns { self.new.turns ≡ self.old.turns }
    {
        if !is_cut || self.book().len() > booked {
            return false;
        }
        let index = self.drops;
        self.drops = self.drops.saturating_add(1);
        match self.silences.get(index) {
            Some(is_silent) => *is_silent,
            None => false,
        }
    }

    /// Reacts to bytes of the link.
    ///
    /// The connection of a silent terminal stays: it hears no more on it, until the gateway gives it up.
    pub(crate) fn react<O: Sink>(
        &mut self,
        chunk: &[u8],
        output: &mut O,
    ) -> Result<LinkState, AllocError>
        ensures reacts { OnOk result (Reacts (O.written output.old) (O.written output.new) self.old.terminal self.new.terminal result chunk.now) }
        ensures not_closed { IfOk result (λ state. state ≢ LinkState.ClosedByGateway) }
        ensures terminal { OnErr result (self.new.terminal ≡ self.old.terminal) }
        ensures output { OnErr result (O.written output.new ≡ O.written output.old) }
        ensures turns { self.new.turns ≡ self.old.turns }
    {
        let booked = self.book().len();
        let answer = match self.terminal.on_bytes(self.alloc, chunk) {
            Ok(answer) => answer,
            Err(error) => return Err(error),
        };
        let is_silent = self.keeps_silent(answer.cut, booked);
        match output.write(answer.bytes.as_slice()) {
            Err(Failed) => Ok(LinkState::Failed),
            Ok(()) if answer.cut && !is_silent => Ok(LinkState::CutByTerminal),
            Ok(()) => Ok(LinkState::Open),
        }
    }

    /// Prints the entries that weren't printed yet.
    fn print_book<L: Sink>(&mut self, lines: &mut L) -> Result<(), Fault>
        ensures terminal { self.new.terminal ≡ self.old.terminal }
        ensures turns { self.new.turns ≡ self.old.turns }
    {
        let book = self.terminal.book().as_slice();
        for entry in book.iter().skip(self.printed) {
            print_entry(self.alloc, entry, lines)?;
        }
        self.printed = book.len();
        Ok(())
    }

    /// Reacts to bytes of the link, and prints what they have booked.
    fn react_and_print<O: Sink, L: Sink>(
        &mut self,
        chunk: &[u8],
        output: &mut O,
        lines: &mut L,
    ) -> Result<LinkState, Fault>
        ensures reacts { (heard : List ℕ) × IsPrefix heard chunk.now × OnOk result (heard ≡ chunk.now)
            × Reacts (O.written output.old) (O.written output.new) self.old.terminal self.new.terminal result heard }
        ensures not_closed { IfOk result (λ state. state ≢ LinkState.ClosedByGateway) }
        ensures turns { self.new.turns ≡ self.old.turns }
    {
        let state = match self.react(chunk, output) {
            Ok(state) => state,
            Err(AllocError) => return Err(Fault::Memory),
        };
        match self.print_book(lines) {
            Ok(()) => Ok(state),
            Err(fault) => Err(fault),
        }
    }

    /// Takes what the gateway sends next, and reacts to it.
    fn hear<I: Source, O: Sink, L: Sink>(
        &mut self,
        buf: &mut [u8; LONGEST_CHUNK],
        input: &mut I,
        output: &mut O,
        lines: &mut L,
    ) -> Result<LinkState, Fault>
        ensures hears { (heard : List ℕ) × IsHeard result (I.left input.old) (I.left input.new) heard
            × Reacts (O.written output.old) (O.written output.new) self.old.terminal self.new.terminal result heard }
        ensures turns { self.new.turns ≡ self.old.turns }
        ensures buf { length buf.new ≡ 4096 }
    {
        match input.read(buf) {
            Err(Failed) => Ok(LinkState::Failed),
            Ok(0) => Ok(LinkState::ClosedByGateway),
            Ok(count) => self.react_and_print(&buf[..count], output, lines),
        }
    }

    /// Serves one link until it ends, and prints what is booked. The link is still open only where no turn is left.
    pub(crate) fn serve_link<I: Source, O: Sink, L: Sink>(
        &mut self,
        input: &mut I,
        output: &mut O,
        lines: &mut L,
    ) -> Result<LinkState, Fault>
        ensures turns { self.new.turns ≤ self.old.turns }
        ensures serves { ServesLink (I.left input.old) (I.left input.new) (O.written output.old) (O.written output.new) self.old.terminal self.new.terminal result }
    {
        law_decode_apdus();
        self.begin_link();
        let mut buf = [0; LONGEST_CHUNK];
        'turns: while self.takes_turn() {
            match self.hear(&mut buf, input, output, lines) {
                Ok(LinkState::Open) => {}
                ended => return ended,
            }
        }
        Ok(LinkState::Open)
    }
}
