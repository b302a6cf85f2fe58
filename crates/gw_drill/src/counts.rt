//! What a drill counts, and the lines that say it.
ghost use Rattle.std.specs.Prelude.{◌≡◌, ◌≤◌, ◌*◌, ◌++◌, IfOk, OnOk, length, string_bytes};
ghost use Rattle.gw_drill.specs.Counts.{IsCountable, approved_in, count_line, counts_of, counts_text, units_of};

use gw_ledger::Tally;
use pt_core::{Book, BookEntry};
use std::alloc::{AllocError, Global};
use std::fmt::Write;

/// What a drill counts.
#[derive(Clone, Copy, PartialEq, Eq)]
pub struct Counts {
    /// That of the ledger after the last run.
    pub tally: Tally,
    /// How many entries of both books are approved.
    pub entries: u64,
    /// Their minor units.
    pub units: u64,
}

/// How many entries are approved.
fn approved_count(book: &[BookEntry]) -> u64
    ensures count { result ≡ length (approved_in book.now) }
    ensures bound { result ≤ length book.now }
{
    let mut count = 0;
    for entry in book {
        if entry.approved {
            count += 1;
        }
    }
    count
}

/// The minor units of the approved entries.
fn approved_units(book: &[BookEntry]) -> u64
    requires { IsCountable book.now }
    ensures units { result ≡ units_of (approved_in book.now) }
    ensures bound { result ≤ 1000000000000 * length book.now }
{
    let mut units = 0;
    for entry in book {
        if entry.approved {
            units += entry.amount;
        }
    }
    units
}

/// Appends a line with a name and a number.
fn push_count(lines: &mut String, name: &str, number: u64) -> Result<(), AllocError>
    ensures { OnOk result (string_bytes lines.new ≡ string_bytes lines.old ++ count_line name.now number) }
{
    write!(lines, "{name} {number}\n")
}

impl Counts {
    /// What is counted once a drill is over, by its ledger's tally and its books.
    pub fn of(tally: Tally, first: &Book, second: &Book) -> Counts
        requires first { IsCountable first.now }
        requires second { IsCountable second.now }
        ensures { result ≡ counts_of tally first.now second.now }
    {
        let (first, second) = (first.as_slice(), second.as_slice());
        Counts {
            tally,
            entries: approved_count(first) + approved_count(second),
            units: approved_units(first) + approved_units(second),
        }
    }

    /// The six lines.
    pub fn lines(&self, alloc: Global) -> Result<String, AllocError>
        ensures { IfOk result (λ text. string_bytes text ≡ counts_text self.now) }
    {
        let mut lines = String::new(alloc);
        push_count(&mut lines, "accepted", u64::from(self.tally.accepted))?;
        push_count(&mut lines, "approved", u64::from(self.tally.approved))?;
        push_count(&mut lines, "declined", u64::from(self.tally.declined))?;
        push_count(&mut lines, "open", u64::from(self.tally.unresolved))?;
        push_count(&mut lines, "entries", self.entries)?;
        push_count(&mut lines, "sum", self.units)?;
        Ok(lines)
    }
}
