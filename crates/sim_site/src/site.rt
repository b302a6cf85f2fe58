//! The site in memory.
ghost use Rattle.std.specs.Prelude.{◌≡◌, ◌≤◌, ◌<◌, ◌⊎◌, ◌↔◌, ◌∷◌, ◌||◌, ◌==◌, ℕ, [], length, Some, Ok, true, false, IfOk, IfErr, OnOk, OnErr, IsErr, IsErrOf};
ghost use Rattle.gw_base.specs.Setup.{IsSetup};
ghost use Rattle.gw_site.specs.Failures.{one_more};
ghost use Rattle.gw_site.specs.Observed.{Grows, GrowsWhole, IfObserved, IsStep};
ghost use Rattle.gw_site.specs.Outside.{file_part, outside_of};
ghost use Rattle.gw_site.specs.Turns.{DiskTurns, IsPromised, IsTurn, IsWithinBuf, LinkTurns, OpenTurns, PolledTurns, SentPtTurns, SentTillTurns, SyncedTurns, WroteTurns};
ghost use Rattle.gw_site.specs.declared.turn.Turn.TheVariants.{Crash, CutPt, CutTill};
ghost use Rattle.gw_site.specs.Steps.{CutPtCall, CutTillCall, Holding, LengthCall, LinkCall, OpenCall, PollCall, ReadCall, SendPtCall, SendTillCall, StopAfter, SyncCall, WriteCall};
ghost use Rattle.gw_script.specs.Decode.{is_empty, script_limit};
ghost use Rattle.gw_script.specs.site.Calls.{IsReachedWith, set_to_fail};
ghost use Rattle.std.specs.Option.{option_copied};
ghost use Rattle.gw_script.specs.site.Decode.{script_of};
ghost use Rattle.gw_script.specs.site.Drill.{drill_begins, drill_origin, drill_payments, drill_script, drill_terminals, drill_turns};
ghost use Rattle.gw_script.specs.site.Peers.{book_of_peer};
ghost use Rattle.gw_script.specs.site.Playing.{begins};
ghost use Rattle.gw_script.specs.site.ScriptLine.{setup_of};
ghost use Rattle.gw_script.specs.site.StepTurns.{site_turns};
ghost use Rattle.sim_script.specs.Read.{IsScriptFault};
ghost use Rattle.sim_script.specs.Values.{image_value, whole_script_value};
ghost use Rattle.sim_site.specs.Steps.{IsReachedPart};

use crate::drill::{Drill, drill_terminals};
use crate::played::Played;
use gw_base::{Bytes, Setup};
use gw_site::{Failed, Polled, Site, Turns, What};
use jrn_log::read_part;
use pt_core::Book;
use sim_script::{ImageKind, Script, ScriptFault, drill_script, read_script};
use std::alloc::{AllocError, Global};
use std::snapshot::Snapshot;

/// A site in memory. Its events, moments, failing calls and power failures are those of a script, in the lines of
/// `docs/FORMATS.md`, or those of a drill, with what its terminals send.
///
/// After its last line a poll brings the stop. Where memory is refused in a call of the trait the site is dark, and its
/// log ends there.
#[derive(Drop)]
pub struct SimSite {
    alloc: Global,
    played: Played,
    faults: u64,
}

/// A count of failures after one more; it stays at its last value.
fn risen(faults: u64) -> u64
    ensures exact { result ≡ one_more faults }
    ensures later { faults ≤ result }
{
    faults.saturating_add(1)
}

impl SimSite {
    ghost use Rattle.sim_site.specs.Made.{IsCallReported};
    ghost use Rattle.sim_site.specs.Sites.{IsCounted, IsDrillPart, IsDrillPlayedTo, IsDrillSetup, IsOriginPlayedTo, IsOriginSetup, IsRestarted, IsSame, PlaysOrigin, TakesStep, first_terminals, is_crashed, is_log_full, log_of, origin_beside, outside_there, place_of, played_script, sim_observed};

    /// A site that plays the script of these bytes, of which it keeps none.
    pub fn from_script(alloc: Global, bytes: &Bytes) -> Result<SimSite, ScriptFault>
        ensures site { IfOk result (λ site. sim_observed site ≡ record { log = Some []; faults = 0; dark = false; origin = bytes.now; plan = Some (site_turns (played_script site).lines) }) }
        ensures log { IfOk result (λ site. log_of site ≡ []) }
        ensures script { IfOk result (λ site. script_of bytes.now ≡ Ok (played_script site)) }
        ensures place { IfOk result (λ site. place_of site ≡ begins (played_script site).lines) }
        ensures terminals { IfOk result (λ site. first_terminals site ≡ []) }
        ensures within { OnOk result (length bytes.now ≤ script_limit) }
        ensures fault { IfErr result (IsScriptFault bytes.now) }

        // Exactly then, but that memory may be refused before.
        ensures long { IsErrOf result ScriptFault.Long ↔ (script_limit < length bytes.now) }
        ensures line { (line : ℕ) → IsScriptFault bytes.now (ScriptFault.Line line)
            → IsErrOf result (ScriptFault.Line line) ⊎ IsErrOf result ScriptFault.Memory }
    {
        match read_script(alloc, bytes.as_slice()) {
            Ok(script) => match SimSite::of(alloc, Snapshot::of(bytes), script) {
                Ok(site) => Ok(site),
                Err(_) => Err(ScriptFault::Memory),
            },
            Err(fault) => Err(fault),
        }
    }

    /// A site that plays the script that was read.
    fn of(alloc: Global, text: Snapshot<Bytes>, script: Script) -> Result<SimSite, AllocError>
        requires { script_of text.value ≡ Ok (whole_script_value script) }
        ensures site { IfOk result (λ site. sim_observed site ≡ record { log = Some []; faults = 0; dark = false; origin = text.value; plan = Some (site_turns (played_script site).lines) }) }
        ensures log { IfOk result (λ site. log_of site ≡ []) }
        ensures script { IfOk result (λ site. script_of text.value ≡ Ok (played_script site)) }
        ensures place { IfOk result (λ site. place_of site ≡ begins (played_script site).lines) }
        ensures terminals { IfOk result (λ site. first_terminals site ≡ []) }
    {
        let played = Played::new(alloc, text, script)?;
        Ok(SimSite {
            alloc,
            played,
            faults: 0,
        })
    }

    /// A site that plays the drill: so many payments, drawn from this number on, and two terminals at which they are made.
    pub fn played(alloc: Global, from: u64, payments: u32) -> Result<SimSite, AllocError>
        requires { payments ≤ 10000 }
        ensures site { IfOk result (λ site. sim_observed site
            ≡ record { log = Some []; faults = 0; dark = false; origin = drill_origin from payments; plan = Some (drill_turns from payments) }) }
        ensures log { IfOk result (λ site. log_of site ≡ []) }
        ensures script { IfOk result (λ site. played_script site ≡ drill_script from payments) }
        ensures place { IfOk result (λ site. place_of site ≡ drill_begins from payments) }
        ensures terminals { IfOk result (λ site. first_terminals site ≡ drill_terminals (drill_payments from payments)) }
    {
        let script = drill_script(alloc, from, payments)?;
        let terminals = drill_terminals(alloc, from, payments)?;
        let played = Played::of_drill(alloc, Drill { from, payments }, script, terminals)?;
        Ok(SimSite {
            alloc,
            played,
            faults: 0,
        })
    }

    /// The power, which has failed, is there again, and the script goes on in the next run. Without memory the site stays
    /// dark.
    pub fn restart(&mut self, alloc: Global) -> Result<(), AllocError>
        requires { is_crashed self.old ≡ true }
        ensures restarted { OnOk result (IsRestarted self.old self.new) }
        ensures refused { OnErr result (IsSame self.old self.new) }
        ensures faults { (sim_observed self.new).faults ≡ (sim_observed self.old).faults }
    {
        match self.played.place.off {
            Some(kind) => self.played.restart(alloc, kind),
            None => Ok(()),
        }
    }

    /// Puts a file on the disk of a site with an empty log, as if a power failure had left it.
    pub fn holding(&mut self, alloc: Global, file: &[u8]) -> Result<(), AllocError>
        requires { log_of self.old ≡ [] }
        ensures log { OnOk result (log_of self.new ≡ Crash file.now ∷ []) }
        ensures taken { OnOk result (TakesStep self.old self.new (Holding file.now) (Crash file.now ∷ [])) }
        ensures place { place_of self.new ≡ place_of self.old }
        ensures script { played_script self.new ≡ played_script self.old }
        ensures terminals { first_terminals self.new ≡ first_terminals self.old }
        ensures dark { (sim_observed self.new).dark ≡ (sim_observed self.old).dark }
        ensures short { is_log_full self.new ≡ is_log_full self.old }
        ensures origin { OnOk result ((sim_observed self.new).origin ≡ origin_beside) }
        ensures refused { OnErr result (IsSame self.old self.new) }
        ensures faults { (sim_observed self.new).faults ≡ (sim_observed self.old).faults }
    {
        self.played.hold(alloc, file)
    }

    /// The power fails after so many more calls other than `poll`, `length` and `read_at`, at once after none, as the line
    /// `power` of a script says; an earlier one that took no effect is replaced. Once the power has failed this
    /// changes nothing but the origin.
    pub fn stop_after(&mut self, calls: u64, image: ImageKind)
        ensures place { place_of self.new ≡ set_to_fail calls (image_value image) (place_of self.old) }
        ensures log { log_of self.new ≡ log_of self.old }
        ensures taken { TakesStep self.old self.new (StopAfter calls (image_value image)) [] }
        ensures script { played_script self.new ≡ played_script self.old }
        ensures terminals { first_terminals self.new ≡ first_terminals self.old }
        ensures dark { (sim_observed self.new).dark ≡ ((sim_observed self.old).dark || (calls == 0)) }
        ensures short { is_log_full self.new ≡ is_log_full self.old }
        ensures origin { (sim_observed self.new).origin ≡ origin_beside }
        ensures faults { (sim_observed self.new).faults ≡ (sim_observed self.old).faults }
    {
        self.played.stop_after(calls, image);
    }

    /// The book of the terminal of this number; none where no such terminal is played.
    pub fn book(&self, pt: u16) -> Option<&Book>
        ensures { option_copied result ≡ book_of_peer (place_of self.now).peers pt }
    {
        self.played.place.peers.book(pt)
    }

    /// The script that is played.
    pub fn script(&self) -> &Script
        ensures { whole_script_value result.now ≡ played_script self.now }
    {
        &self.played.script
    }

    /// Whether the script was read to its end: no line is left.
    pub fn ended(&self) -> bool
        ensures { result ≡ is_empty (place_of self.now).lines }
    {
        self.played.is_ended()
    }

    /// Whether the site is dark because its log could not grow.
    pub fn short(&self) -> bool
        ensures short { result ≡ is_log_full self.now }
        ensures dark { result ≡ true → (sim_observed self.now).dark ≡ true }
    {
        self.played.short
    }

    /// Whether the site is dark by a power failure.
    pub fn crashed(&self) -> bool
        ensures crashed { result ≡ is_crashed self.now }
        ensures dark { result ≡ true → (sim_observed self.now).dark ≡ true }
        ensures either { is_log_full self.now ≡ false → result ≡ (sim_observed self.now).dark }
    {
        !self.played.short && self.played.place.off.is_some()
    }

    /// A copy of the setup with which the next run starts.
    pub fn setup(&self, alloc: Global) -> Result<Setup, AllocError>
        ensures given { IfOk result (λ setup. setup ≡ setup_of (played_script self.now).given) }
        ensures own { IfOk result (λ setup. IsOriginSetup (sim_observed self.now).origin setup) }
        ensures limits { IfOk result IsSetup }
        ensures drill { IfOk result (λ setup. IsDrillSetup (sim_observed self.now).origin setup) }
    {
        self.played.script.given.setup(alloc)
    }

    /// What went in and out: the log of calls on the site, of its power failures, and of `holding` and `stop_after` where they
    /// were called; else it plays the script of the text of which the site was made, or its drill. Where it could not grow it is
    /// a prefix of such a log.
    pub fn log(&self) -> &Turns
        ensures log { result.now ≡ log_of self.now }
        ensures steps { is_log_full self.now ≡ false
            → ∥ IsReachedWith (first_terminals self.now) (played_script self.now).lines result.now (place_of self.now) ∥₁ }
        ensures part { ∥ IsReachedPart (first_terminals self.now) (played_script self.now).lines result.now ∥₁ }
        ensures plays { PlaysOrigin (sim_observed self.now).origin result.now }
        ensures calls { is_log_full self.now ≡ false → IsOriginPlayedTo (sim_observed self.now).origin result.now (place_of self.now) }

        // The same of a drill, by its numbers.
        ensures drill { is_log_full self.now ≡ false → IsDrillPlayedTo (sim_observed self.now).origin result.now (place_of self.now) }
        ensures drill_part { IsDrillPart (sim_observed self.now).origin result.now }
    {
        &self.played.log
    }

    /// Counts a failure.
    fn fail(&mut self) -> Failed
        ensures exact { self.new.faults ≡ one_more self.old.faults }
        ensures later { self.old.faults ≤ self.new.faults }
        ensures played { self.new.played ≡ self.old.played }
    {
        self.faults = risen(self.faults);
        Failed
    }

    /// What a call returns: it failed, or memory was refused for it, or it was made.
    fn report(&mut self, made: Result<bool, AllocError>) -> Result<(), Failed>
        ensures reported { IsCallReported made result }
        ensures counted { IsCounted self.old.faults self.new.faults result }
        ensures played { self.new.played ≡ self.old.played }
    {
        match made {
            Ok(fails) => { if fails { Err(self.fail()) } else { Ok(()) } }
            Err(_) => Err(self.fail()),
        }
    }

    /// What a poll brings, at the moment up to which the script is played.
    fn poll_result(&self, what: What) -> Polled
        ensures { result ≡ record { now = self.now.played.place.moment; what = what } }
    {
        Polled {
            now: self.played.place.moment,
            what,
        }
    }
}

impl Site for SimSite {
    ghost use Rattle.std.specs.Prelude.{is_some};
    ghost use Rattle.gw_script.specs.site.Hazards.{is_failing, takes_most};
    ghost use Rattle.sim_site.specs.Sites.{IsCalled, IsCounted, IsResult, IsStill, first_terminals, place_of, played_script, sim_observed};

    ghost observed = { sim_observed };

    fn open(&mut self, setup: &Setup) -> Result<(), Failed>
        ensures turns { GrowsWhole (sim_observed self.old) (sim_observed self.new) (OpenTurns setup.now result) }
        ensures step { IsStep (sim_observed self.old) (sim_observed self.new) (OpenCall setup.now) }
        ensures counted { IsCounted (sim_observed self.old).faults (sim_observed self.new).faults result }
        ensures dark { (sim_observed self.old).dark ≡ true → IsErr result }
        ensures call { IsCalled self.old self.new (OpenCall setup.now) }
        ensures result { IsResult self.old self.new ((place_of self.old).hazard.fail_open) result }
        ensures still { (sim_observed self.old).dark ≡ true → IsStill self.old self.new }
        ensures script { played_script self.new ≡ played_script self.old }
        ensures terminals { first_terminals self.new ≡ first_terminals self.old }
    {
        if self.played.is_dark() {
            return Err(self.fail());
        }
        let made = self.played.open(self.alloc, setup);
        self.report(made)
    }

    fn poll(&mut self, buf: &mut [u8; 4096]) -> Polled
        ensures turns { Grows (sim_observed self.old) (sim_observed self.new) (PolledTurns result buf.new) }
        ensures step { IsStep (sim_observed self.old) (sim_observed self.new) PollCall }
        ensures promise { IfObserved (sim_observed self.old) (λ log. IsPromised (outside_of log) result.what) }
        ensures count { IsWithinBuf result.what }
        ensures buf { length buf.new ≡ 4096 }
        ensures faults { (sim_observed self.new).faults ≡ (sim_observed self.old).faults }
        ensures dark { (sim_observed self.old).dark ≡ true → result.what ≡ What.Stopped }
        ensures call { IsCalled self.old self.new PollCall }
        ensures stops { (sim_observed self.new).dark ≡ true → result.what ≡ What.Stopped }
        ensures still { (sim_observed self.old).dark ≡ true → IsStill self.old self.new }
        ensures script { played_script self.new ≡ played_script self.old }
        ensures terminals { first_terminals self.new ≡ first_terminals self.old }
    {
        if self.played.is_dark() {
            return self.poll_result(What::Stopped);
        }
        match self.played.poll(buf) {
            Ok(what) => self.poll_result(what),
            Err(_) => self.poll_result(What::Stopped),
        }
    }

    fn send_till(&mut self, till: u64, bytes: &[u8]) -> Result<(), Failed>
        ensures turns { Grows (sim_observed self.old) (sim_observed self.new) (SentTillTurns till bytes.now result) }
        ensures step { IsStep (sim_observed self.old) (sim_observed self.new) (SendTillCall till bytes.now) }
        ensures counted { IsCounted (sim_observed self.old).faults (sim_observed self.new).faults result }
        ensures dark { (sim_observed self.old).dark ≡ true → IsErr result }
        ensures call { IsCalled self.old self.new (SendTillCall till bytes.now) }
        ensures result { IsResult self.old self.new (is_some (takes_most (place_of self.old).hazard.fail_tills till)) result }
        ensures still { (sim_observed self.old).dark ≡ true → IsStill self.old self.new }
        ensures script { played_script self.new ≡ played_script self.old }
        ensures terminals { first_terminals self.new ≡ first_terminals self.old }
    {
        if self.played.is_dark() {
            return Err(self.fail());
        }
        let made = self.played.send_till(self.alloc, till, bytes);
        self.report(made)
    }

    fn send_pt(&mut self, pt: u16, bytes: &[u8]) -> Result<(), Failed>
        ensures turns { Grows (sim_observed self.old) (sim_observed self.new) (SentPtTurns pt bytes.now result) }
        ensures step { IsStep (sim_observed self.old) (sim_observed self.new) (SendPtCall pt bytes.now) }
        ensures counted { IsCounted (sim_observed self.old).faults (sim_observed self.new).faults result }
        ensures dark { (sim_observed self.old).dark ≡ true → IsErr result }
        ensures call { IsCalled self.old self.new (SendPtCall pt bytes.now) }
        ensures result { IsResult self.old self.new (is_some (takes_most (place_of self.old).hazard.fail_pts pt)) result }
        ensures still { (sim_observed self.old).dark ≡ true → IsStill self.old self.new }
        ensures script { played_script self.new ≡ played_script self.old }
        ensures terminals { first_terminals self.new ≡ first_terminals self.old }
    {
        if self.played.is_dark() {
            return Err(self.fail());
        }
        let made = self.played.send_pt(self.alloc, pt, bytes);
        self.report(made)
    }

    fn link_pt(&mut self, pt: u16) -> Result<(), Failed>
        ensures turns { Grows (sim_observed self.old) (sim_observed self.new) (LinkTurns pt result) }
        ensures step { IsStep (sim_observed self.old) (sim_observed self.new) (LinkCall pt) }
        ensures counted { IsCounted (sim_observed self.old).faults (sim_observed self.new).faults result }
        ensures dark { (sim_observed self.old).dark ≡ true → IsErr result }
        ensures call { IsCalled self.old self.new (LinkCall pt) }
        ensures result { IsResult self.old self.new (is_failing (place_of self.old).hazard.fail_links pt) result }
        ensures still { (sim_observed self.old).dark ≡ true → IsStill self.old self.new }
        ensures script { played_script self.new ≡ played_script self.old }
        ensures terminals { first_terminals self.new ≡ first_terminals self.old }
    {
        if self.played.is_dark() {
            return Err(self.fail());
        }
        let made = self.played.link(pt);
        self.report(made)
    }

    fn cut_till(&mut self, till: u64)
        ensures turns { Grows (sim_observed self.old) (sim_observed self.new) (IsTurn (CutTill till)) }
        ensures step { IsStep (sim_observed self.old) (sim_observed self.new) (CutTillCall till) }
        ensures faults { (sim_observed self.new).faults ≡ (sim_observed self.old).faults }
        ensures call { IsCalled self.old self.new (CutTillCall till) }
        ensures still { (sim_observed self.old).dark ≡ true → IsStill self.old self.new }
        ensures script { played_script self.new ≡ played_script self.old }
        ensures terminals { first_terminals self.new ≡ first_terminals self.old }
    {
        if self.played.is_dark() {
            return;
        }
        let _ = self.played.cut_till(till);
    }

    fn cut_pt(&mut self, pt: u16)
        ensures turns { Grows (sim_observed self.old) (sim_observed self.new) (IsTurn (CutPt pt)) }
        ensures step { IsStep (sim_observed self.old) (sim_observed self.new) (CutPtCall pt) }
        ensures faults { (sim_observed self.new).faults ≡ (sim_observed self.old).faults }
        ensures call { IsCalled self.old self.new (CutPtCall pt) }
        ensures still { (sim_observed self.old).dark ≡ true → IsStill self.old self.new }
        ensures script { played_script self.new ≡ played_script self.old }
        ensures terminals { first_terminals self.new ≡ first_terminals self.old }
    {
        if self.played.is_dark() {
            return;
        }
        let _ = self.played.cut_pt(pt);
    }

    fn length(&mut self) -> Result<u64, Failed>
        ensures turns { Grows (sim_observed self.old) (sim_observed self.new) (DiskTurns result) }
        ensures step { IsStep (sim_observed self.old) (sim_observed self.new) LengthCall }
        ensures length { IfObserved (sim_observed self.old) (λ log. IfOk result (λ count. count ≡ length (outside_of log).file)) }
        ensures counted { IsCounted (sim_observed self.old).faults (sim_observed self.new).faults result }
        ensures dark { (sim_observed self.old).dark ≡ true → IsErr result }
        ensures call { IsCalled self.old self.new LengthCall }
        ensures result { IsResult self.old self.new ((place_of self.old).hazard.fail_length) result }
        ensures still { (sim_observed self.old).dark ≡ true → IsStill self.old self.new }
        ensures script { played_script self.new ≡ played_script self.old }
        ensures terminals { first_terminals self.new ≡ first_terminals self.old }
    {
        if self.played.is_dark() {
            return Err(self.fail());
        }
        let made = self.played.length();
        match self.report(made) {
            Ok(()) => Ok(self.played.disk.file.len() as u64),
            Err(Failed) => Err(Failed),
        }
    }

    fn read_at(&mut self, offset: u64, buf: &mut [u8]) -> Result<(), Failed>
        ensures turns { Grows (sim_observed self.old) (sim_observed self.new) (DiskTurns result) }
        ensures step { IsStep (sim_observed self.old) (sim_observed self.new) (ReadCall offset (length buf.old)) }
        ensures bytes { IfObserved (sim_observed self.old) (λ log. IfOk result (λ done. buf.new ≡ file_part (outside_of log).file offset (length buf.old))) }
        ensures counted { IsCounted (sim_observed self.old).faults (sim_observed self.new).faults result }
        ensures dark { (sim_observed self.old).dark ≡ true → IsErr result }
        ensures call { IsCalled self.old self.new (ReadCall offset (length buf.old)) }
        ensures result { IsResult self.old self.new ((place_of self.old).hazard.fail_read) result }
        ensures still { (sim_observed self.old).dark ≡ true → IsStill self.old self.new }
        ensures script { played_script self.new ≡ played_script self.old }
        ensures terminals { first_terminals self.new ≡ first_terminals self.old }
    {
        if self.played.is_dark() {
            return Err(self.fail());
        }
        let made = self.played.read();
        match self.report(made) {
            Ok(()) => {
                read_part(&self.played.disk.file, offset, buf);
                Ok(())
            }
            Err(Failed) => Err(Failed),
        }
    }

    fn write_at(&mut self, offset: u64, bytes: &[u8]) -> Result<(), Failed>
        ensures turns { Grows (sim_observed self.old) (sim_observed self.new) (WroteTurns offset bytes.now result) }
        ensures step { IsStep (sim_observed self.old) (sim_observed self.new) (WriteCall offset bytes.now) }
        ensures counted { IsCounted (sim_observed self.old).faults (sim_observed self.new).faults result }
        ensures dark { (sim_observed self.old).dark ≡ true → IsErr result }
        ensures call { IsCalled self.old self.new (WriteCall offset bytes.now) }
        ensures result { IsResult self.old self.new ((place_of self.old).hazard.fail_write) result }
        ensures still { (sim_observed self.old).dark ≡ true → IsStill self.old self.new }
        ensures script { played_script self.new ≡ played_script self.old }
        ensures terminals { first_terminals self.new ≡ first_terminals self.old }
    {
        if self.played.is_dark() {
            return Err(self.fail());
        }
        let made = self.played.write(self.alloc, offset, bytes);
        self.report(made)
    }

    fn sync(&mut self) -> Result<(), Failed>
        ensures turns { Grows (sim_observed self.old) (sim_observed self.new) (SyncedTurns result) }
        ensures step { IsStep (sim_observed self.old) (sim_observed self.new) SyncCall }
        ensures counted { IsCounted (sim_observed self.old).faults (sim_observed self.new).faults result }
        ensures dark { (sim_observed self.old).dark ≡ true → IsErr result }
        ensures call { IsCalled self.old self.new SyncCall }
        ensures result { IsResult self.old self.new ((place_of self.old).hazard.fail_sync) result }
        ensures still { (sim_observed self.old).dark ≡ true → IsStill self.old self.new }
        ensures script { played_script self.new ≡ played_script self.old }
        ensures terminals { first_terminals self.new ≡ first_terminals self.old }
    {
        if self.played.is_dark() {
            return Err(self.fail());
        }
        let made = self.played.sync();
        self.report(made)
    }
}
