//! The records of a run: the journal, and the ledger of what it has kept.
ghost use Rattle.std.specs.Prelude.{◌≡◌, ◌+◌, ◌≤◌, length, Ok, Err, IfOk};
ghost use Rattle.gw_base.specs.declared.setup.Setup.{Setup as TheSetup};
ghost use Rattle.gw_site.specs.Failures.{Rose};
ghost use Rattle.gw_site.specs.Observed.{IfObserved};
ghost use Rattle.gw_site.specs.Outside.{outside_of};
ghost use Rattle.jrn_log.specs.Journal.{StandsFor};
ghost use Rattle.gw_ledger.specs.Sums.{open_count_of};
ghost use Rattle.gw_rules.specs.Triple.{TripleBy, JustBegun};
ghost use Rattle.gw_dispatch.specs.RecordsOpening.{LedgerGives, HoldsFile, IsExactlyCut, IsExactlyBad, IsExactlyRefused, OpenedBy, OpensBy, cause_of};
ghost use Rattle.gw_dispatch.specs.Growth.{EndsInFailure, GoesOnByCalls};

use gw_base::Bodies;
use gw_ledger::{BadRecord, Ledger, LedgerFault};
use gw_rules::{law_kept_files, law_records_in_order};
use gw_site::Site;
use jrn_log::{Journal, OpenFault};
use std::alloc::Global;
use std::error::Error;
use std::fmt;

/// Why the records of a run were not opened.
#[derive(Clone, Copy, Debug, PartialEq, Eq)]
pub enum Unopened {
    /// A call on the disk has failed.
    Disk,
    /// The journal's file has this length in bytes: more than its slots take, or its records leave fewer slots free than keys open.
    TooLong { length: u64 },
    /// This slot is open, and the file ends before the gate of the next.
    Cut { slot: u32 },
    /// This slot is the first that is no record, or one that does not fit those before it.
    BadRecord { slot: u32 },
    /// Memory was refused.
    Memory,
}

impl fmt::Display for Unopened {
    fn fmt<W: fmt::Write>(&self, f: &mut fmt::Formatter<W>) -> fmt::Result {
        match self {
            Unopened::Disk => write!(f, "a call on the disk has failed"),
            Unopened::TooLong { length } => write!(f, "the journal has {length} bytes"),
            Unopened::Cut { slot } => write!(f, "the journal is cut in slot {slot}"),
            Unopened::BadRecord { slot } => {
                write!(f, "the journal has a bad record in slot {slot}")
            }
            Unopened::Memory => write!(f, "out of memory"),
        }
    }
}

impl Error for Unopened {}

/// The journal of a run, and the ledger of its records.
#[derive(Drop)]
pub struct Records {
    pub(crate) journal: Journal,
    pub(crate) ledger: Ledger,
}

/// Why the records were not opened, where the journal was not.
fn unopened_by(fault: OpenFault) -> Unopened
    ensures { result ≡ cause_of fault }
{
    match fault {
        OpenFault::Disk => Unopened::Disk,
        OpenFault::TooLong { length } => Unopened::TooLong { length },
        OpenFault::Cut { slot } => Unopened::Cut { slot },
        OpenFault::Memory => Unopened::Memory,
    }
}

/// The records of a journal, whose bodies these are. Each key that is open takes one more record at last, so a slot is free for each.
fn with_ledger(alloc: Global, journal: Journal, bodies: &Bodies) -> Result<Records, Unopened>
    requires few { length bodies.now ≤ 1000000 }
    requires count { journal.len ≡ length bodies.now }
    ensures { LedgerGives journal bodies.now result }
{
    let ledger = match Ledger::from_records(alloc, bodies) {
        Ok(ledger) => ledger,
        Err(LedgerFault::BadRecord(BadRecord { slot })) => {
            return Err(Unopened::BadRecord { slot });
        }
        Err(LedgerFault::Memory) => return Err(Unopened::Memory),
    };
    if journal.room() < ledger.open_count() {
        let length = journal.opened();
        return Err(Unopened::TooLong { length });
    }
    Ok(Records { journal, ledger })
}

impl Records {
    /// Opens the journal of a site's file, with at most so many slots, and makes the ledger of its records.
    ///
    /// A failure of the disk is reported before a fault of the file.
    pub fn open<S: Site>(alloc: Global, site: &mut S, slots: u32) -> Result<Records, Unopened>
        requires slots { slots ≤ 1000000 }
        ensures file { IfObserved (S.observed site.old) (λ log. IfOk result (HoldsFile slots (outside_of log).file)) }
        ensures too_long { IfObserved (S.observed site.old) (λ log. IsExactlyRefused slots (outside_of log).file result) }
        ensures cut { IfObserved (S.observed site.old) (λ log. IsExactlyCut slots (outside_of log).file result) }
        ensures bad { IfObserved (S.observed site.old) (λ log. IsExactlyBad slots (outside_of log).file result) }
        ensures disk { result ≡ Err Unopened.Disk → Rose (S.observed site.old).faults (S.observed site.new).faults }
        ensures failed { result ≡ Err Unopened.Disk → IfObserved (S.observed site.old) (λ log. EndsInFailure (S.observed site.new)) }
        ensures adds { IfObserved (S.observed site.old) (λ log. GoesOnByCalls log (S.observed site.new)) }
        ensures later { (S.observed site.old).faults ≤ (S.observed site.new).faults }
        ensures count { IfOk result (λ records. records.journal.len ≡ length records.ledger.records) }
        ensures limit { IfOk result (λ records. records.journal.slots ≡ slots) }
        ensures room { IfOk result (λ records. length records.ledger.records + open_count_of records.ledger.records ≤ slots) }
        ensures triple { (setup : TheSetup) → setup.slots ≡ slots → TripleBy (OpensBy setup result) (S.observed site.old) (S.observed site.new) (JustBegun setup) (OpenedBy setup result) }
        ensures stands { IfOk result (λ records. StandsFor records.journal (S.observed site.new)) }
    {
        law_kept_files();
        law_records_in_order();
        match Journal::open(alloc, site, slots) {
            Err(fault) => Err(unopened_by(fault)),
            Ok((journal, bodies)) => with_ledger(alloc, journal, &bodies),
        }
    }
}
