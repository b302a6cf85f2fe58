//! One run over a site: it is opened and polled, what each event brings is handled, and then what may be due.
ghost use Rattle.std.specs.Prelude.{◌≡◌, ◌≢◌, ◌≤◌, ◌+◌, ℕ, ℤ, length, Err, IfOk, Ok, OnErr, OnOk};
ghost use Rattle.gw_bytes.specs.Bytes.{AreBytes};
ghost use Rattle.gw_base.specs.Setup.{IsSetup};
ghost use Rattle.gw_base.specs.declared.setup.Setup.{Setup as TheSetup};
ghost use Rattle.gw_site.specs.Failures.{Rose};
ghost use Rattle.gw_site.specs.Turns.{IsWithinBuf};
ghost use Rattle.gw_site.specs.Observed.{IfObserved, Observed};
ghost use Rattle.jrn_log.specs.Journal.{StandsFor};
ghost use Rattle.gw_site.specs.Outside.{outside_of};
ghost use Rattle.gw_rules.specs.Acts.{Unmeasured};
ghost use Rattle.gw_rules.specs.Triple.{Triple, TripleBy, RunTriple, IsRun, JustBegun};
ghost use Rattle.gw_rules.specs.View.{View};
ghost use Rattle.gw_dispatch.specs.Rounds.{IsReady, BeforeChunk, BeforeOpen, BeforePtBytes, BeforePtEnd, IsBetweenRounds, IsPolled, IsHandled, IsOfTill, AfterEvent, AfterRound, HasPolledOnce};
ghost use Rattle.gw_dispatch.specs.RunState.{LeavesRoom, UnlessBroken, gateway_of};
ghost use Rattle.gw_dispatch.specs.Growth.{AddsPolls, EndsForMemory, EndsForMemorySince, EndsInFailure, EndsRoundForMemory, GoesOnByPolls, HasGoneOn, HasBroken, PollsToEnd};
ghost use Rattle.gw_dispatch.specs.Serving.{held_without};
ghost use Rattle.gw_dispatch.specs.Tills.{others};
ghost use Rattle.gw_dispatch.specs.declared.fault.TurnFault.{TurnFault as TheFault};
ghost use Rattle.gw_dispatch.specs.RecordsOpening.{HasOpened};
ghost use Rattle.gw_dispatch.specs.RunEnd.{EndedBy, EndsByFound, HasBegun, EndsRounds, IsDueFrom, IsEndByFile, KeptBy, MayLackMemory, NoneBegan, TalliedBy, end_by};

use crate::fault::TurnFault;
use crate::pts::{new_readers, on_bytes, on_closed, on_due};
use crate::records::{Records, Unopened};
use crate::replier::Replier;
use crate::run_state::RunState;
use crate::serving::serve;
use crate::tills::{Tills, drop_till, index_of, open_till};
use gw_base::Setup;
use gw_bytes::{LONGEST_CHUNK, MOST_TILLS};
use gw_core::{Core, Gateway};
use gw_ledger::Tally;
use gw_owes::{law_records, law_waits};
use gw_site::{Failed, Polled, Site, What};
use sale_reply::Out;
use std::alloc::{AllocError, Global};
use zvt_apdu::ApduReader;

/// How a round ended.
#[derive(Clone, Copy, Debug, PartialEq, Eq)]
pub enum RoundEnd {
    /// All that it owed is done, and the next poll may come.
    Went,
    /// The poll has brought the stop.
    Stopped,
}

/// How a run ended.
#[derive(Clone, Copy, Debug, PartialEq, Eq)]
pub enum Ended {
    /// `Stopped` was polled, or all polls were made.
    Done,
    /// The site could not be opened.
    NotOpened,
    /// A call on the disk has failed.
    Disk,
    /// The journal's file has this length in bytes: more than its slots take, or its records leave fewer slots free than keys open.
    TooLong { length: u64 },
    /// This slot of the journal is open, and the file ends before the gate of the next.
    Cut { slot: u32 },
    /// This slot of the journal is the first that is no record, or one that does not fit those before it.
    BadRecord { slot: u32 },
    /// Memory was refused.
    NoMemory,
}

/// How a run ended, and the tally of its ledger then. It is that of no records where none were opened.
#[derive(Clone, Copy, PartialEq, Eq)]
pub struct TalliedEnd {
    pub ended: Ended,
    pub tally: Tally,
}

/// The tally of no records.
const NO_TALLY: Tally = Tally {
    accepted: 0,
    approved: 0,
    declined: 0,
    unresolved: 0,
    sum: 0,
};

impl TalliedEnd {
    /// How a run ended, with the tally of no records.
    pub fn untallied(ended: Ended) -> TalliedEnd
        ensures { result.ended ≡ ended }
    {
        TalliedEnd {
            ended,
            tally: NO_TALLY,
        }
    }
}

/// What the gateway holds in a run.
#[derive(Drop)]
pub struct Dispatch {
    state: RunState,
    /// The tills that are there.
    tills: Tills,
    /// By the terminals' numbers; each is empty as a link is made.
    readers: Vec<ApduReader>,
}

impl Dispatch {
    /// What is held once the opening of a run with this setup is done: the readers of all terminals and the buffer of replies are made here, and nowhere later.
    pub fn open(alloc: Global, setup: &Setup, records: Records) -> Result<Dispatch, AllocError>
        requires setup { IsSetup setup.now }
        requires records { LeavesRoom setup.now.slots records }
        ensures begun { IfOk result (λ dispatch. (v : View) → HasOpened setup.now records v → IsBetweenRounds setup.now dispatch 0 v) }
        ensures ready { IfOk result (λ dispatch. (observed : Observed) → StandsFor records.journal observed → IsReady dispatch observed) }
        ensures gateway { IfOk result (λ dispatch. gateway_of setup.now ≡ dispatch.state.gateway) }
    {
        law_records();
        law_waits();
        records.ledger.law_folded();
        let out = Out::new(alloc)?;
        let core = Core::open(alloc, setup)?;
        let readers = new_readers(alloc, core.count())?;
        let gateway = Gateway {
            name: setup.name,
            slots: setup.slots,
            line: setup.line,
            wait: setup.wait,
        };
        Ok(Dispatch {
            state: RunState {
                gateway,
                core,
                records,
            },
            tills: Tills {
                replier: Replier { alloc, out },
                list: Vec::new(alloc),
            },
            readers,
        })
    }

    /// Forgets a till that is gone: replies to it aren't sent later.
    fn forget(&mut self, till: u64)
        ensures state { self.new.state ≡ held_without self.old.state till }
        ensures list { self.new.tills.list.items ≡ others self.old.tills.list.items till }
        ensures readers { self.new.readers ≡ self.old.readers }
    {
        drop_till(&mut self.tills.list, till);
        self.state.core.forget(till);
    }

    /// Handles the bytes that a till's connection has brought.
    fn on_bytes<S: Site>(
        &mut self,
        site: &mut S,
        now: i64,
        number: u64,
        bytes: &[u8],
    ) -> Result<RoundEnd, TurnFault>
        requires chunk { length bytes.now ≤ 4096 }
        requires ready { IsReady self.old (S.observed site.old) }
        ensures triple { (setup : TheSetup) (polls : ℕ) → gateway_of setup ≡ self.old.state.gateway → Triple (S.observed site.old) (S.observed site.new)
            (BeforeChunk setup self.old polls now number bytes.now)
            (AfterEvent result setup self.new polls now) }
        ensures went { result ≢ Ok RoundEnd.Stopped }
        ensures failed { result ≡ Err TheFault.Disk → HasBroken (S.observed site.old) (S.observed site.new) }
        ensures ready { OnOk result (IsReady self.new (S.observed site.new)) }
        ensures gateway { self.new.state.gateway ≡ self.old.state.gateway }
        ensures goes_on { HasGoneOn (S.observed site.old) (S.observed site.new) }
    {
        let index = match index_of(&self.tills.list, number) {
            Some(index) => index,
            None => return Ok(RoundEnd::Went),
        };
        let alloc = self.tills.replier.alloc;
        match self.tills.list[index].reader.feed(alloc, bytes) {
            Ok(()) => {}
            Err(AllocError) => return Err(TurnFault::Memory),
        }
        match serve(&mut self.state, &mut self.tills, site, now, number) {
            Ok(()) => Ok(RoundEnd::Went),
            Err(fault) => Err(fault),
        }
    }

    /// Handles the opening of a till.
    fn on_open<S: Site>(&mut self, site: &mut S, number: u64) -> Result<RoundEnd, TurnFault>
        requires ready { IsReady self.old (S.observed site.old) }
        ensures triple { (setup : TheSetup) (polls : ℕ) (now : ℤ) → Triple (S.observed site.old) (S.observed site.new)
            (BeforeOpen setup self.old polls now number)
            (AfterEvent result setup self.new polls now) }
        ensures went { result ≢ Ok RoundEnd.Stopped }
        ensures failed { result ≡ Err TheFault.Disk → HasBroken (S.observed site.old) (S.observed site.new) }
        ensures ready { OnOk result (IsReady self.new (S.observed site.new)) }
        ensures gateway { self.new.state.gateway ≡ self.old.state.gateway }
        ensures goes_on { HasGoneOn (S.observed site.old) (S.observed site.new) }
    {
        match index_of(&self.tills.list, number) {
            Some(_) => return Ok(RoundEnd::Went),
            None => {}
        }
        if self.tills.list.len() >= MOST_TILLS {
            site.cut_till(number);
            self.state.core.forget(number);
            return Ok(RoundEnd::Went);
        }
        match open_till(self.tills.replier.alloc, &mut self.tills.list, number) {
            Ok(()) => Ok(RoundEnd::Went),
            Err(AllocError) => Err(TurnFault::Memory),
        }
    }

    /// Handles the bytes that a terminal's connection has brought. Those of a link that isn't held have no effect. It has no error but a
    /// failed call on the disk.
    fn on_pt_bytes<S: Site>(
        &mut self,
        site: &mut S,
        now: i64,
        pt: u16,
        bytes: &[u8],
    ) -> Result<(), Failed>
        requires chunk { length bytes.now ≤ 4096 }
        requires ready { IsReady self.old (S.observed site.old) }
        ensures triple { (setup : TheSetup) (polls : ℕ) → Triple (S.observed site.old) (S.observed site.new)
            (BeforePtBytes setup self.old polls now pt bytes.now)
            (UnlessBroken result (λ done. IsHandled setup self.new polls now)) }
        ensures failed { OnErr result (HasBroken (S.observed site.old) (S.observed site.new)) }
        ensures ready { OnOk result (IsReady self.new (S.observed site.new)) }
        ensures gateway { self.new.state.gateway ≡ self.old.state.gateway }
        ensures goes_on { HasGoneOn (S.observed site.old) (S.observed site.new) }
    {
        if pt >= self.state.core.count() {
            return Ok(());
        }
        if !self.state.core.is_linked(pt) {
            return Ok(());
        }
        match on_bytes(
            &mut self.state,
            &mut self.tills,
            &mut self.readers,
            site,
            pt,
            bytes,
            now,
        ) {
            Ok(()) => Ok(()),
            Err(Failed) => Err(Failed),
        }
    }

    /// Handles the end of a terminal's connection. That of a link that isn't held has no effect.
    fn on_pt_closed<S: Site>(&mut self, site: &mut S, now: i64, pt: u16)
        requires ready { IsReady self.old (S.observed site.old) }
        ensures triple { (setup : TheSetup) (polls : ℕ) → Triple (S.observed site.old) (S.observed site.new)
            (BeforePtEnd setup self.old polls now pt)
            (IsHandled setup self.new polls now) }
        ensures ready { IsReady self.new (S.observed site.new) }
        ensures gateway { self.new.state.gateway ≡ self.old.state.gateway }
        ensures goes_on { HasGoneOn (S.observed site.old) (S.observed site.new) }
    {
        if pt >= self.state.core.count() {
            return;
        }
        if !self.state.core.is_linked(pt) {
            return;
        }
        on_closed(
            &mut self.state.core,
            &mut self.tills,
            &self.readers,
            site,
            pt,
            now,
        );
    }

    /// Handles what a poll has brought. Memory is refused at most where a till has opened, or bytes of one have come.
    fn on_event<S: Site>(
        &mut self,
        site: &mut S,
        now: i64,
        what: What,
        buf: &[u8; 4096],
    ) -> Result<RoundEnd, TurnFault>
        requires within { IsWithinBuf what }
        requires ready { IsReady self.old (S.observed site.old) }
        ensures triple { (setup : TheSetup) (polls : ℕ) → gateway_of setup ≡ self.old.state.gateway → Triple (S.observed site.old) (S.observed site.new)
            (IsPolled setup self.old polls now what buf.now)
            (AfterEvent result setup self.new (polls + 1) now) }
        ensures bytes { AreBytes buf.now }
        ensures stopped { result ≡ Ok RoundEnd.Stopped → what ≡ What.Stopped }
        ensures still { result ≡ Ok RoundEnd.Stopped → S.observed site.new ≡ S.observed site.old }
        ensures memory { result ≡ Err TheFault.Memory → IsOfTill what }
        ensures failed { result ≡ Err TheFault.Disk → HasBroken (S.observed site.old) (S.observed site.new) }
        ensures ready { OnOk result (IsReady self.new (S.observed site.new)) }
        ensures gateway { self.new.state.gateway ≡ self.old.state.gateway }
        ensures goes_on { HasGoneOn (S.observed site.old) (S.observed site.new) }
    {
        match what {
            What::Stopped => Ok(RoundEnd::Stopped),
            What::TillOpened(number) => self.on_open(site, number),
            What::TillBytes(number, count) => self.on_bytes(site, now, number, &buf[..count]),
            What::TillClosed(number) => {
                self.forget(number);
                Ok(RoundEnd::Went)
            }
            What::PtBytes(pt, count) => match self.on_pt_bytes(site, now, pt, &buf[..count]) {
                Ok(()) => Ok(RoundEnd::Went),
                Err(Failed) => Err(TurnFault::Disk),
            },
            What::PtClosed(pt) => {
                self.on_pt_closed(site, now, pt);
                Ok(RoundEnd::Went)
            }
            What::Nothing => Ok(RoundEnd::Went),
        }
    }

    /// One round: a poll, what its event brings, and then what may be due. What was heard is read into the buffer.
    ///
    /// Between two rounds nothing is owed, and so it is after this one: all that it owed is done, and nothing else. After no memory
    /// the run ends; that comes only of the event of a till that has opened or sent bytes, and where no call is owed.
    pub fn turn<S: Site>(
        &mut self,
        site: &mut S,
        buf: &mut [u8; 4096],
    ) -> Result<RoundEnd, TurnFault>
        requires ready { IsReady self.old (S.observed site.old) }
        ensures triple { (setup : TheSetup) (polls : ℕ) → gateway_of setup ≡ self.old.state.gateway → Triple (S.observed site.old) (S.observed site.new)
            (IsBetweenRounds setup self.old polls)
            (AfterRound result setup self.new (polls + 1)) }
        ensures buf { length buf.new ≡ 4096 }
        ensures polled { IfOk result (λ end. IfObserved (S.observed site.old) (λ before. HasPolledOnce end before (S.observed site.new))) }
        ensures memory { result ≡ Err TheFault.Memory → IfObserved (S.observed site.old) (λ before. EndsRoundForMemory before (S.observed site.new)) }
        ensures failed { result ≡ Err TheFault.Disk → HasBroken (S.observed site.old) (S.observed site.new) }
        ensures ready { OnOk result (IsReady self.new (S.observed site.new)) }
        ensures gateway { self.new.state.gateway ≡ self.old.state.gateway }
        ensures goes_on { GoesOnByPolls 1 (S.observed site.old) (S.observed site.new) }
    {
        let Polled { now, what } = site.poll(buf);
        match self.on_event(site, now, what, buf) {
            Ok(RoundEnd::Went) => {
                let core = &mut self.state.core;
                on_due(core, &mut self.tills, &mut self.readers, site, now);
                Ok(RoundEnd::Went)
            }
            Ok(RoundEnd::Stopped) => Ok(RoundEnd::Stopped),
            Err(fault) => Err(fault),
        }
    }

    /// The rounds of a run, at most so many, from the first on.
    fn rounds<S: Site>(&mut self, site: &mut S, most: u64) -> Ended
        requires ready { IsReady self.old (S.observed site.old) }
        ensures failed { result ≡ Ended.Disk → HasBroken (S.observed site.old) (S.observed site.new) }
        ensures triple { (setup : TheSetup) → gateway_of setup ≡ self.old.state.gateway → Triple (S.observed site.old) (S.observed site.new)
            (IsBetweenRounds setup self.old 0)
            (KeptBy result self.new.state.records.ledger.records most) }
        ensures ran { EndsRounds result }
        ensures done { result ≡ Ended.Done → IfObserved (S.observed site.old) (λ before. PollsToEnd most before (S.observed site.new)) }
        ensures memory { MayLackMemory result → IfObserved (S.observed site.old) (λ before. EndsForMemory (S.observed site.new)) }
        ensures goes_on { GoesOnByPolls most (S.observed site.old) (S.observed site.new) }
    {
        // One buffer for all polls of the run, so that it is filled with zeros once.
        let mut buf = [0; LONGEST_CHUNK];
        for made in 0..most {
            match self.turn(site, &mut buf) {
                Ok(RoundEnd::Went) => {}
                Ok(RoundEnd::Stopped) => return Ended::Done,
                Err(TurnFault::Disk) => return Ended::Disk,
                Err(TurnFault::Memory) => return Ended::NoMemory,
            }
        }
        Ended::Done
    }
}

/// The rounds of a run whose opening is done, at most so many, with what it holds.
pub(crate) fn opened_rounds<S: Site>(
    alloc: Global,
    setup: &Setup,
    site: &mut S,
    records: Records,
    most: u64,
) -> TalliedEnd
    requires setup { IsSetup setup.now }
    requires records { LeavesRoom setup.now.slots records }
    requires stands { StandsFor records.journal (S.observed site.old) }
    ensures failed { result.ended ≡ Ended.Disk → HasBroken (S.observed site.old) (S.observed site.new) }
    ensures triple { Triple (S.observed site.old) (S.observed site.new) (HasOpened setup.now records) (TalliedBy result most) }
    ensures ran { EndsRounds result.ended }
    ensures done { result.ended ≡ Ended.Done → IfObserved (S.observed site.old) (λ before. PollsToEnd most before (S.observed site.new)) }
    ensures memory { MayLackMemory result.ended → IfObserved (S.observed site.old) (λ before. EndsForMemorySince before (S.observed site.new)) }
    ensures goes_on { GoesOnByPolls most (S.observed site.old) (S.observed site.new) }
{
    match Dispatch::open(alloc, setup, records) {
        Ok(mut dispatch) => {
            let ended = dispatch.rounds(site, most);
            TalliedEnd {
                ended,
                tally: dispatch.state.records.ledger.tally(),
            }
        }
        Err(AllocError) => TalliedEnd::untallied(Ended::NoMemory),
    }
}

/// How a run ends whose records were not opened.
fn ended_by(cause: Unopened) -> Ended
    ensures { result ≡ end_by cause }
{
    match cause {
        Unopened::Disk => Ended::Disk,
        Unopened::TooLong { length } => Ended::TooLong { length },
        Unopened::Cut { slot } => Ended::Cut { slot },
        Unopened::BadRecord { slot } => Ended::BadRecord { slot },
        Unopened::Memory => Ended::NoMemory,
    }
}

/// A run with this setup once its site is open: its records are opened, and then come its rounds, at most so many.
fn journaled<S: Site>(alloc: Global, setup: &Setup, site: &mut S, most: u64) -> TalliedEnd
    requires { IsSetup setup.now }
    ensures triple { TripleBy (IsDueFrom setup.now Unmeasured) (S.observed site.old) (S.observed site.new) (JustBegun setup.now) (TalliedBy result most) }
    ensures begun { HasBegun result.ended }
    ensures disk { result.ended ≡ Ended.Disk → Rose (S.observed site.old).faults (S.observed site.new).faults }
    ensures file { IfObserved (S.observed site.old) (λ before. IsEndByFile setup.now.slots (outside_of before).file result.ended) }
    ensures failed { result.ended ≡ Ended.Disk → IfObserved (S.observed site.old) (λ before. EndsInFailure (S.observed site.new)) }
    ensures memory { MayLackMemory result.ended → IfObserved (S.observed site.old) (λ before. EndsForMemorySince before (S.observed site.new)) }
    ensures polls { IfObserved (S.observed site.old) (λ before. AddsPolls most before (S.observed site.new)) }
    ensures done { result.ended ≡ Ended.Done → IfObserved (S.observed site.old) (λ before. PollsToEnd most before (S.observed site.new)) }
    ensures later { (S.observed site.old).faults ≤ (S.observed site.new).faults }
{
    match Records::open(alloc, site, setup.slots) {
        Ok(records) => opened_rounds(alloc, setup, site, records, most),
        Err(cause) => TalliedEnd::untallied(ended_by(cause)),
    }
}

/// One run over a site, as [`run`] makes it, and the tally of its ledger.
///
/// Where it is done and the site isn't dark, the tally is that of the records that are kept.
pub fn run_tallied<S: Site>(alloc: Global, setup: &Setup, site: &mut S, most: u64) -> TalliedEnd
    requires { IsSetup setup.now }
    ensures lawful { RunTriple setup.now (S.observed site.old) (S.observed site.new) (IsRun setup.now) (TalliedBy result most) }
    ensures opened { result.ended ≡ Ended.NotOpened → Rose (S.observed site.old).faults (S.observed site.new).faults }
    ensures none { result.ended ≡ Ended.NotOpened → IfObserved (S.observed site.old) (λ before. NoneBegan before (S.observed site.new)) }
    ensures disk { result.ended ≡ Ended.Disk → Rose (S.observed site.old).faults (S.observed site.new).faults }
    ensures file { IfObserved (S.observed site.old) (λ before. EndsByFound setup.now.slots before (S.observed site.new) result.ended) }
    ensures failed { result.ended ≡ Ended.Disk → IfObserved (S.observed site.old) (λ before. EndsInFailure (S.observed site.new)) }
    ensures memory { MayLackMemory result.ended → IfObserved (S.observed site.old) (λ before. EndsForMemory (S.observed site.new)) }
    ensures polls { IfObserved (S.observed site.old) (λ before. AddsPolls most before (S.observed site.new)) }
    ensures done { result.ended ≡ Ended.Done → IfObserved (S.observed site.old) (λ before. PollsToEnd most before (S.observed site.new)) }
    ensures later { (S.observed site.old).faults ≤ (S.observed site.new).faults }
{
    match site.open(setup) {
        Ok(()) => journaled(alloc, setup, site, most),
        Err(Failed) => TalliedEnd::untallied(Ended::NotOpened),
    }
}

/// One run over a site, of at most so many polls. The records of its journal are opened before the first.
///
/// The log of the site goes on by what is owed and by nothing else, and whatever is owed is done before the next poll. A site
/// that goes dark ends the run. However it ends, the site was polled no more often.
/// It is `Done` only where `Stopped` was polled or exactly so many polls were made, whatever the log before it, or the site is dark.
///
/// Memory is refused only before the first poll, or in a round in which a till has opened or bytes of one have come: in the log no
/// event comes after that one, and no poll. Else the site is dark.
pub fn run<S: Site>(alloc: Global, setup: &Setup, site: &mut S, most: u64) -> Ended
    requires { IsSetup setup.now }
    ensures lawful { RunTriple setup.now (S.observed site.old) (S.observed site.new) (IsRun setup.now) (EndedBy result most) }
    ensures opened { result ≡ Ended.NotOpened → Rose (S.observed site.old).faults (S.observed site.new).faults }
    ensures none { result ≡ Ended.NotOpened → IfObserved (S.observed site.old) (λ before. NoneBegan before (S.observed site.new)) }
    ensures disk { result ≡ Ended.Disk → Rose (S.observed site.old).faults (S.observed site.new).faults }
    ensures file { IfObserved (S.observed site.old) (λ before. EndsByFound setup.now.slots before (S.observed site.new) result) }
    ensures failed { result ≡ Ended.Disk → IfObserved (S.observed site.old) (λ before. EndsInFailure (S.observed site.new)) }
    ensures memory { MayLackMemory result → IfObserved (S.observed site.old) (λ before. EndsForMemory (S.observed site.new)) }
    ensures polls { IfObserved (S.observed site.old) (λ before. AddsPolls most before (S.observed site.new)) }
    ensures done { result ≡ Ended.Done → IfObserved (S.observed site.old) (λ before. PollsToEnd most before (S.observed site.new)) }
    ensures later { (S.observed site.old).faults ≤ (S.observed site.new).faults }
{
    run_tallied(alloc, setup, site, most).ended
}
