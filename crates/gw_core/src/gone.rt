//! A till is gone: its requests wait no longer, and replies to it aren't sent later. What that takes is counted.
ghost use Rattle.std.specs.Prelude.{◌≡◌, ◌<◌, ◌≤◌, ◌+◌, ◌*◌, length, filter, not, ◌==◌, IsSome};
ghost use Rattle.gw_links.specs.Waiting.{item_of, of_seat, without_request};
ghost use Rattle.gw_owes.specs.Core.{Wait};
ghost use Rattle.gw_owes.specs.Terminals.{asker_but, core_without};
ghost use Rattle.gw_core.specs.Queues.{AreLinesApart, waits_of};

use crate::queues::{Queues, seat_of};
use crate::terminals::Core;
use gw_links::{LineId, Lines, Steps};
use std::marker::Brand;
use std::sync::ledger::{Blank, Ledger};

/// The till that asked, unless it is this one.
fn asker_but(till: u64, asker: Option<u64>) -> Option<u64>
    ensures { result ≡ asker_but till asker }
{
    match asker {
        Some(asker) if asker != till => Some(asker),
        _ => None,
    }
}

/// A request waits no longer. The look that has found it is a step, too.
fn remove<L: Ledger>(lines: &mut Lines, id: LineId, steps: &mut Steps<L>)
    requires { IsSome (item_of lines.old id) }
    ensures removed { lines.new ≡ without_request id lines.old }
    ensures few { steps.new ≤ steps.old + 8 }
{
    steps.add(1);
    lines.take_counted(id, steps);
}

/// None waits at this seat any more. The last look, which finds none, is a step, too.
fn clear_seat<L: Ledger>(lines: &mut Lines, seat: u16, steps: &mut Steps<L>)
    requires { AreLinesApart lines.old }
    ensures cleared { lines.new ≡ filter (λ waiting. not (waiting.item.seat == seat)) lines.old }
    ensures few { steps.new ≤ steps.old + (8 * length (of_seat seat lines.old) + 1) }
{
    while let Some(id) = lines.first_of(seat) {
        remove(lines, id, steps);
    }
    steps.add(1)
}

impl Queues {
    /// None of this till waits any more.
    fn forget<L: Ledger>(&mut self, till: u64, steps: &mut Steps<L>)
        ensures forgotten { self.new ≡ filter (λ (wait : Wait). not (wait.till == till)) self.old }
        ensures few { steps.new ≤ steps.old + (8 * length (waits_of till self.old) + 1) }
    {
        if let Some(seat) = seat_of(&self.lines, till) {
            clear_seat(&mut self.lines, seat, steps);
        }
    }
}

impl Core {
    /// A till is gone: its requests wait no longer, and replies to it aren't sent later.
    pub fn forget(&mut self, till: u64)
        ensures { self.new ≡ core_without self.old till }
    {
        self.forget_with::<Brand>(till, Blank::new(1))
    }

    fn forget_with<L: Ledger>(&mut self, till: u64, blank: Blank)
        requires name { blank.name ≡ L.name }
        requires parts { blank.parts ≡ L.parts }
        requires some { 0 < blank.parts }
        ensures { self.new ≡ core_without self.old till }
    {
        let mut steps = Steps::<L>::none(blank);
        self.forget_counted(till, &mut steps)
    }

    /// As `forget`, and counts its steps: those with which each of the till's requests is taken out, and each look for the next one. The
    /// 64 seats that are looked at for that of the till are no steps.
    pub fn forget_counted<L: Ledger>(&mut self, till: u64, steps: &mut Steps<L>)
        ensures forgotten { self.new ≡ core_without self.old till }
        ensures few { steps.new ≤ steps.old + (8 * length (waits_of till self.old.waits) + 1) }
    {
        for terminal in self.terminals.iter_mut() {
            terminal.asker = asker_but(till, terminal.asker);
        }
        self.queues.forget(till, steps);
    }
}
