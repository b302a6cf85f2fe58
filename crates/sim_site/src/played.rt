//! A script, and the log that has played it so far.
ghost use Rattle.std.specs.Prelude.{◌≡◌, ◌⊎◌, ◌||◌, ◌==◌, ℕ, ◌∷◌, ◌++◌, [], List, length, Ok, Some, None, true, false, not, is_some, OnOk, OnErr, IfOk, if◌then◌else◌};
ghost use Rattle.std.specs.Option.{option_to_list};
ghost use Rattle.gw_bytes.specs.Bytes.{AreBytes};
ghost use Rattle.gw_site.specs.Outside.{Outside, outside_from, outside_of};
ghost use Rattle.gw_site.specs.declared.turn.Turn.TheVariants.{Crash, DiskFailed, Linked, LinkFailed, OpenFailed, Polled, SentPt, SentTill, Start, Synced, Wrote};
ghost use Rattle.gw_site.specs.Steps.{CutPtCall, CutTillCall, LengthCall, LinkCall, OpenCall, PollCall, ReadCall, SendPtCall, SendTillCall, SyncCall, WriteCall};
ghost use Rattle.gw_script.specs.site.Calls.{set_to_fail};
ghost use Rattle.gw_script.specs.site.Decode.{script_of};
ghost use Rattle.gw_script.specs.site.Drill.{drill_payments, drill_script, drill_terminals};
ghost use Rattle.gw_script.specs.Decode.{is_empty};
ghost use Rattle.gw_script.specs.site.Hazards.{crash_file, is_failing, sent_of, takes_most};
ghost use Rattle.gw_script.specs.site.Playing.{restarted};
ghost use Rattle.sim_script.specs.Values.{image_value, lines_value, whole_script_value};
ghost use Rattle.sim_site.specs.Connected.{HasConnections};
ghost use Rattle.sim_site.specs.Disks.{HasDisk};
ghost use Rattle.sim_site.specs.Places.{place_value};
ghost use Rattle.sim_site.specs.Sources.{source_script, source_terminals};
ghost use Rattle.sim_site.specs.Steps.{HasPart, HasSteps};

use crate::connections::Connections;
use crate::disk::Disk;
use crate::drill::Drill;
use crate::hazard::{is_failing, takes_most};
use crate::place::Place;
use crate::polled::polled;
use crate::sent::taken;
use gw_base::{Bytes, Setup};
use gw_site::{BoxedSetup, SharedBytes, Turn, Turns, What};
use pt_core::Terminal;
use sim_script::{ImageKind, Script};
use std::alloc::{AllocError, Global};
use std::snapshot::Snapshot;

/// A script, the log that has played it up to a place, and the disk and the connections that the log has led to.
#[derive(Drop)]
pub(crate) struct Played {
    /// The text of the script, of which no bytes are kept: clauses alone read it.
    pub(crate) text: Snapshot<Bytes>,
    pub(crate) script: Script,
    /// What is played is the script or the drill alone: no power failure was set and no file was put on the disk beside it.
    pub(crate) scripted: bool,
    /// The drill that is played, if it isn't the script of a text.
    pub(crate) drill: Option<Drill>,
    pub(crate) place: Place,
    pub(crate) log: Turns,
    /// The log could not grow; place, disk and connections aren't those of the log any more.
    pub(crate) short: bool,
    pub(crate) disk: Disk,
    pub(crate) connections: Connections,
    pub(crate) ghost source: { source_script drill text.value ≡ Ok (whole_script_value script) },
    pub(crate) ghost part: { ∥ HasPart scripted (source_terminals drill) (lines_value script.lines.items) log ∥₁ },
    pub(crate) ghost stands: { short ≡ false → ∥ HasSteps scripted (source_terminals drill) (lines_value script.lines.items) log (place_value script.lines.items place) ∥₁ },
    pub(crate) ghost disk_is: { short ≡ false → HasDisk (outside_of log) disk },
    pub(crate) ghost connections_are: { short ≡ false → HasConnections (outside_of log) connections },
}

/// A log without turns.
fn no_turns(alloc: Global) -> Turns
    ensures { result ≡ [] }
{
    Turns::new(Vec::new(alloc))
}

/// Appends the turn of an opening.
fn push_open(log: &mut Turns, alloc: Global, setup: &Setup, fails: bool) -> Result<(), AllocError>
    ensures ok { OnOk result (log.new ≡ log.old ++ (if fails then OpenFailed ∷ [] else Start setup.now ∷ [])) }
    ensures err { OnErr result (log.new ≡ log.old) }
{
    if fails {
        return log.push(Turn::OpenFailed);
    }
    let copy = BoxedSetup::copied(alloc, setup)?;
    log.push(Turn::Start(copy))
}

/// Appends the turn of a link.
fn push_link(log: &mut Turns, pt: u16, fails: bool) -> Result<(), AllocError>
    ensures ok { OnOk result (log.new ≡ log.old ++ (if fails then LinkFailed pt ∷ [] else Linked pt ∷ [])) }
    ensures err { OnErr result (log.new ≡ log.old) }
{
    if fails {
        log.push(Turn::LinkFailed { pt })
    } else {
        log.push(Turn::Linked { pt })
    }
}

/// Appends the turn of a send to a till.
fn push_send_till(
    log: &mut Turns,
    alloc: Global,
    till: u64,
    bytes: &[u8],
    most: Option<u64>,
) -> Result<(), AllocError>
    ensures ok { OnOk result (log.new ≡ log.old ++ SentTill till (sent_of most bytes.now) (not (is_some most)) ∷ []) }
    ensures err { OnErr result (log.new ≡ log.old) }
{
    let sent = SharedBytes::copied(alloc, taken(bytes, most))?;
    log.push(Turn::SentTill {
        till,
        bytes: sent,
        ok: most.is_none(),
    })
}

/// Appends the turn of a send to a terminal.
fn push_send_pt(
    log: &mut Turns,
    alloc: Global,
    pt: u16,
    bytes: &[u8],
    most: Option<u64>,
) -> Result<(), AllocError>
    ensures ok { OnOk result (log.new ≡ log.old ++ SentPt pt (sent_of most bytes.now) (not (is_some most)) ∷ []) }
    ensures err { OnErr result (log.new ≡ log.old) }
{
    let sent = SharedBytes::copied(alloc, taken(bytes, most))?;
    log.push(Turn::SentPt {
        pt,
        bytes: sent,
        ok: most.is_none(),
    })
}

/// Appends the turn of a power failure that leaves this file.
fn push_crash(log: &mut Turns, alloc: Global, file: &[u8]) -> Result<(), AllocError>
    ensures ok { OnOk result (log.new ≡ log.old ++ Crash file.now ∷ []) }
    ensures err { OnErr result (log.new ≡ log.old) }
    ensures bytes { AreBytes file.now }
{
    let copy = SharedBytes::copied(alloc, file)?;
    log.push(Turn::Crash { file: copy })
}

/// Appends the turn of what a poll brings, where there is one.
fn push_event(log: &mut Turns, event: Option<Turn>) -> Result<(), AllocError>
    ensures ok { OnOk result (log.new ≡ log.old ++ option_to_list event) }
    ensures err { OnErr result (log.new ≡ log.old) }
{
    match event {
        Some(turn) => log.push(turn),
        None => Ok(()),
    }
}

/// Appends the turn of a poll, and that of what it brings.
fn push_poll(log: &mut Turns, now: i64, event: Option<Turn>) -> Result<(), AllocError>
    ensures ok { OnOk result (log.new ≡ log.old ++ Polled now ∷ option_to_list event) }
    ensures err { OnErr result ((log.new ≡ log.old) ⊎ (log.new ≡ log.old ++ Polled now ∷ [])) }
{
    log.push(Turn::Polled { now })?;
    push_event(log, event)
}

/// Appends the turn of a write, and that of its failure.
fn push_write(
    log: &mut Turns,
    alloc: Global,
    offset: u64,
    bytes: &[u8],
    fails: bool,
) -> Result<(), AllocError>
    ensures ok { OnOk result (log.new ≡ log.old ++ (if fails then Wrote offset bytes.now ∷ DiskFailed ∷ [] else Wrote offset bytes.now ∷ [])) }
    ensures err { OnErr result ((log.new ≡ log.old) ⊎ (log.new ≡ log.old ++ Wrote offset bytes.now ∷ [])) }
{
    let copy = SharedBytes::copied(alloc, bytes)?;
    log.push(Turn::Wrote {
        pos: offset,
        bytes: copy,
    })?;
    if fails {
        log.push(Turn::DiskFailed)?;
    }
    Ok(())
}

/// Appends the turn of a sync.
fn push_sync(log: &mut Turns, fails: bool) -> Result<(), AllocError>
    ensures ok { OnOk result (log.new ≡ log.old ++ (if fails then DiskFailed ∷ [] else Synced ∷ [])) }
    ensures err { OnErr result (log.new ≡ log.old) }
{
    if fails {
        log.push(Turn::DiskFailed)
    } else {
        log.push(Turn::Synced)
    }
}

/// Appends the turn of a failure of the disk, where there is one.
fn push_look(log: &mut Turns, fails: bool) -> Result<(), AllocError>
    ensures ok { OnOk result (log.new ≡ log.old ++ (if fails then DiskFailed ∷ [] else [])) }
    ensures err { OnErr result (log.new ≡ log.old) }
{
    if fails {
        log.push(Turn::DiskFailed)?;
    }
    Ok(())
}

/// A terminal is linked, unless this fails.
fn link(connections: &mut Connections, pt: u16, fails: bool) -> Result<(), AllocError>
    ensures { OnOk result ((o : Outside) → HasConnections o connections.old → HasConnections (outside_from o (if fails then LinkFailed pt ∷ [] else Linked pt ∷ [])) connections.new) }
{
    if fails {
        return Ok(());
    }
    connections.link(pt)
}

/// The file is synced, unless this fails.
fn sync(disk: &mut Disk, fails: bool) -> Result<(), AllocError>
    ensures { OnOk result ((o : Outside) → HasDisk o disk.old → HasDisk (outside_from o (if fails then DiskFailed ∷ [] else Synced ∷ [])) disk.new) }
{
    if fails {
        return Ok(());
    }
    disk.sync()
}

impl Played {
    ghost use Rattle.std.specs.Prelude.{IsSome};
    ghost use Rattle.gw_site.specs.Turns.{IsPromised, IsWithinBuf};
    ghost use Rattle.sim_site.specs.Hazards.{links_value, sends_value};
    ghost use Rattle.sim_site.specs.Dark.{is_dark};
    ghost use Rattle.sim_site.specs.Made.{IsLit, IsCallMade, IsUnplayed, IsPollRefused, IsPollMade, IsRefused, IsSameScript, IsUnchanged, IsWriteRefused, outside_at, play_at};

    /// Nothing of this script, which the text was read as, is played yet.
    pub(crate) fn new(
        alloc: Global,
        text: Snapshot<Bytes>,
        script: Script,
    ) -> Result<Played, AllocError>
        requires { script_of text.value ≡ Ok (whole_script_value script) }
        ensures new { IfOk result (λ played. IsUnplayed text.value None played) }
        ensures script { IfOk result (λ played. played.script ≡ script) }
    {
        let terminals = Vec::new(alloc);
        Played::from_first(alloc, text, script, None, terminals)
    }

    /// Nothing of this drill, of which this is the script and these are the terminals, is played yet.
    pub(crate) fn of_drill(
        alloc: Global,
        drill: Drill,
        script: Script,
        terminals: Vec<Terminal>,
    ) -> Result<Played, AllocError>
        requires script { whole_script_value script ≡ drill_script drill.from drill.payments }
        requires terminals { terminals.items ≡ drill_terminals (drill_payments drill.from drill.payments) }
        ensures new { IfOk result (λ played. IsUnplayed [] (Some drill) played) }
        ensures script { IfOk result (λ played. played.script ≡ script) }
    {
        let text = Bytes::new(Vec::new(alloc));
        Played::from_first(alloc, Snapshot::of(&text), script, Some(drill), terminals)
    }

    /// Nothing is played yet of what is to be played.
    fn from_first(
        alloc: Global,
        text: Snapshot<Bytes>,
        script: Script,
        drill: Option<Drill>,
        terminals: Vec<Terminal>,
    ) -> Result<Played, AllocError>
        requires source { source_script drill text.value ≡ Ok (whole_script_value script) }
        requires terminals { terminals.items ≡ source_terminals drill }
        ensures new { IfOk result (λ played. IsUnplayed text.value drill played) }
        ensures script { IfOk result (λ played. played.script ≡ script) }
    {
        let place = Place::first(alloc, &script.lines, terminals)?;
        Ok(Played {
            text,
            script,
            scripted: true,
            drill,
            place,
            log: no_turns(alloc),
            short: false,
            disk: Disk::empty(alloc),
            connections: Connections::none(alloc),
        })
    }

    /// Whether nothing is appended any more: the log could not grow, or the power has failed.
    pub(crate) fn is_dark(&self) -> bool
        ensures dark { result ≡ is_dark self.now }
        ensures lit { result ≡ false → IsLit self.now }
    {
        self.short || self.place.off.is_some()
    }

    /// Whether no line is left.
    pub(crate) fn is_ended(&self) -> bool
        ensures { result ≡ is_empty (play_at self.now).lines }
    {
        self.place.is_last(&self.script.lines)
    }

    /// The power is to fail after so many more calls.
    pub(crate) fn stop_after(&mut self, calls: u64, kind: ImageKind)
        ensures place { play_at self.new ≡ set_to_fail calls (image_value kind) (play_at self.old) }
        ensures scripted { self.new.scripted ≡ false }
        ensures dark { is_dark self.new ≡ (is_dark self.old || (calls == 0)) }
        ensures log { self.new.log ≡ self.old.log }
        ensures short { self.new.short ≡ self.old.short }
        ensures script { self.new.script ≡ self.old.script }
        ensures drill { self.new.drill ≡ self.old.drill }
    {
        self.scripted = false;
        self.place.fail_after(calls, kind);
    }

    /// The power, which has failed and leaves this, is there again; nothing changes where there is no memory.
    pub(crate) fn restart(&mut self, alloc: Global, kind: ImageKind) -> Result<(), AllocError>
        requires whole { self.old.short ≡ false }
        requires off { self.old.place.off ≡ Some kind }
        ensures log { OnOk result (self.new.log ≡ self.old.log ++ Crash (crash_file (image_value kind) (outside_at self.old)) ∷ []) }
        ensures bytes { OnOk result (AreBytes (crash_file (image_value kind) (outside_at self.old))) }
        ensures place { OnOk result (play_at self.new ≡ restarted (play_at self.old)) }
        ensures power { OnOk result (self.new.place.off ≡ None) }
        ensures refused { OnErr result (IsUnchanged self.old self.new) }
        ensures whole { self.new.short ≡ false }
        ensures same { IsSameScript self.old self.new }
    {
        let disk = self.disk.after_power_failure(alloc, kind)?;
        push_crash(&mut self.log, alloc, &disk.file)?;
        self.place.restart();
        self.connections.clear();
        self.disk = disk;
        Ok(())
    }

    /// The disk has this file, as a power failure left it; nothing changes where there is no memory.
    pub(crate) fn hold(&mut self, alloc: Global, file: &[u8]) -> Result<(), AllocError>
        requires { self.old.log ≡ [] }
        ensures log { OnOk result (self.new.log ≡ self.old.log ++ Crash file.now ∷ []) }
        ensures scripted { OnOk result (self.new.scripted ≡ false) }
        ensures place { OnOk result (self.new.place ≡ self.old.place) }
        ensures refused { OnErr result (IsUnchanged self.old self.new) }
        ensures short { self.new.short ≡ self.old.short }
        ensures script { self.new.script ≡ self.old.script }
        ensures drill { self.new.drill ≡ self.old.drill }
    {
        let disk = Disk::of(alloc, file)?;
        push_crash(&mut self.log, alloc, file)?;
        self.scripted = false;
        self.connections.clear();
        self.disk = disk;
        Ok(())
    }

    /// The site is opened. True where this fails.
    pub(crate) fn open(&mut self, alloc: Global, setup: &Setup) -> Result<bool, AllocError>
        requires { IsLit self.old }
        ensures made { OnOk result (IsCallMade self.old self.new (OpenCall setup.now)) }
        ensures fails { IfOk result (λ fails. fails ≡ self.old.place.hazard.open) }
        ensures refused { OnErr result (IsRefused self.old self.new) }
        ensures same { IsSameScript self.old self.new }
    {
        self.short = true;
        let fails = self.place.hazard.open;
        push_open(&mut self.log, alloc, setup, fails)?;
        self.place.open();
        self.connections.clear();
        self.short = false;
        Ok(fails)
    }

    /// The site is polled. What this brings, with its bytes in the buffer; the stop where the power fails.
    pub(crate) fn poll(&mut self, buf: &mut [u8; 4096]) -> Result<What, AllocError>
        requires { IsLit self.old }
        ensures made { OnOk result (IsCallMade self.old self.new PollCall) }
        ensures polled { IfOk result (λ what. IsPollMade self.old self.new what buf.new) }
        ensures promise { IfOk result (λ what. IsPromised (outside_at self.old) what) }
        ensures count { IfOk result (λ what. IsWithinBuf what) }
        ensures refused { OnErr result (IsPollRefused self.old self.new) }
        ensures short { OnErr result (self.new.short ≡ true) }
        ensures buf { length buf.new ≡ 4096 }
        ensures same { IsSameScript self.old self.new }
    {
        self.short = true;
        let brought = polled(
            &mut self.place,
            &self.script.lines,
            &mut self.connections,
            buf,
        )?;
        let Some(brought) = brought else {
            self.short = false;
            return Ok(What::Stopped);
        };
        push_poll(&mut self.log, self.place.moment, brought.turn)?;
        self.short = false;
        Ok(brought.what)
    }

    /// Bytes are sent to a till. True where this fails.
    pub(crate) fn send_till(
        &mut self,
        alloc: Global,
        till: u64,
        bytes: &[u8],
    ) -> Result<bool, AllocError>
        requires { IsLit self.old }
        ensures made { OnOk result (IsCallMade self.old self.new (SendTillCall till bytes.now)) }
        ensures fails { IfOk result (λ fails. fails ≡ is_some (takes_most (sends_value self.old.place.hazard.tills) till)) }
        ensures refused { OnErr result (IsRefused self.old self.new) }
        ensures same { IsSameScript self.old self.new }
    {
        self.short = true;
        let most = takes_most(&self.place.hazard.tills, till);
        push_send_till(&mut self.log, alloc, till, bytes, most)?;
        self.place.send_till(till);
        self.short = false;
        Ok(most.is_some())
    }

    /// Bytes are sent to a terminal. True where this fails.
    pub(crate) fn send_pt(
        &mut self,
        alloc: Global,
        pt: u16,
        bytes: &[u8],
    ) -> Result<bool, AllocError>
        requires { IsLit self.old }
        ensures made { OnOk result (IsCallMade self.old self.new (SendPtCall pt bytes.now)) }
        ensures fails { IfOk result (λ fails. fails ≡ is_some (takes_most (sends_value self.old.place.hazard.pts) pt)) }
        ensures refused { OnErr result (IsRefused self.old self.new) }
        ensures same { IsSameScript self.old self.new }
    {
        self.short = true;
        let most = takes_most(&self.place.hazard.pts, u64::from(pt));
        self.place.send_pt(alloc, pt, bytes)?;
        push_send_pt(&mut self.log, alloc, pt, bytes, most)?;
        self.short = false;
        Ok(most.is_some())
    }

    /// A terminal is linked. True where this fails.
    pub(crate) fn link(&mut self, pt: u16) -> Result<bool, AllocError>
        requires { IsLit self.old }
        ensures made { OnOk result (IsCallMade self.old self.new (LinkCall pt)) }
        ensures fails { IfOk result (λ fails. fails ≡ is_failing (links_value self.old.place.hazard.links) pt) }
        ensures refused { OnErr result (IsRefused self.old self.new) }
        ensures same { IsSameScript self.old self.new }
    {
        self.short = true;
        let fails = is_failing(&self.place.hazard.links, pt);
        link(&mut self.connections, pt, fails)?;
        push_link(&mut self.log, pt, fails)?;
        self.place.link(pt);
        self.short = false;
        Ok(fails)
    }

    /// A till's connection is cut.
    pub(crate) fn cut_till(&mut self, till: u64) -> Result<(), AllocError>
        requires { IsLit self.old }
        ensures made { OnOk result (IsCallMade self.old self.new (CutTillCall till)) }
        ensures refused { OnErr result (IsRefused self.old self.new) }
        ensures same { IsSameScript self.old self.new }
    {
        self.short = true;
        self.log.push(Turn::CutTill { till })?;
        self.place.cut();
        self.connections.cut_till(till);
        self.short = false;
        Ok(())
    }

    /// A terminal's connection is cut.
    pub(crate) fn cut_pt(&mut self, pt: u16) -> Result<(), AllocError>
        requires { IsLit self.old }
        ensures made { OnOk result (IsCallMade self.old self.new (CutPtCall pt)) }
        ensures refused { OnErr result (IsRefused self.old self.new) }
        ensures same { IsSameScript self.old self.new }
    {
        self.short = true;
        self.log.push(Turn::CutPt { pt })?;
        self.place.cut();
        self.connections.cut_pt(pt);
        self.short = false;
        Ok(())
    }

    /// The file's length is asked. True where this fails.
    pub(crate) fn length(&mut self) -> Result<bool, AllocError>
        requires { IsLit self.old }
        ensures made { OnOk result (IsCallMade self.old self.new LengthCall) }
        ensures fails { IfOk result (λ fails. fails ≡ self.old.place.hazard.length) }
        ensures refused { OnErr result (IsRefused self.old self.new) }
        ensures same { IsSameScript self.old self.new }
    {
        self.short = true;
        let fails = self.place.hazard.length;
        push_look(&mut self.log, fails)?;
        self.place.length();
        self.short = false;
        Ok(fails)
    }

    /// Bytes of the file are asked. True where this fails.
    pub(crate) fn read(&mut self) -> Result<bool, AllocError>
        requires { IsLit self.old }
        ensures made { OnOk result ((offset size : ℕ) → IsCallMade self.old self.new (ReadCall offset size)) }
        ensures fails { IfOk result (λ fails. fails ≡ self.old.place.hazard.read) }
        ensures refused { OnErr result (IsRefused self.old self.new) }
        ensures same { IsSameScript self.old self.new }
    {
        self.short = true;
        let fails = self.place.hazard.read;
        push_look(&mut self.log, fails)?;
        self.place.read();
        self.short = false;
        Ok(fails)
    }

    /// Bytes are written. True where this fails.
    pub(crate) fn write(
        &mut self,
        alloc: Global,
        offset: u64,
        bytes: &[u8],
    ) -> Result<bool, AllocError>
        requires { IsLit self.old }
        ensures made { OnOk result (IsCallMade self.old self.new (WriteCall offset bytes.now)) }
        ensures fails { IfOk result (λ fails. fails ≡ self.old.place.hazard.write) }
        ensures refused { OnErr result (IsWriteRefused self.old self.new offset bytes.now) }
        ensures short { OnErr result (self.new.short ≡ true) }
        ensures same { IsSameScript self.old self.new }
    {
        self.short = true;
        let fails = self.place.hazard.write;
        self.disk.write(offset as usize, bytes)?;
        push_write(&mut self.log, alloc, offset, bytes, fails)?;
        self.place.write();
        self.short = false;
        Ok(fails)
    }

    /// The file is synced. True where this fails.
    pub(crate) fn sync(&mut self) -> Result<bool, AllocError>
        requires { IsLit self.old }
        ensures made { OnOk result (IsCallMade self.old self.new SyncCall) }
        ensures fails { IfOk result (λ fails. fails ≡ self.old.place.hazard.sync) }
        ensures refused { OnErr result (IsRefused self.old self.new) }
        ensures same { IsSameScript self.old self.new }
    {
        self.short = true;
        let fails = self.place.hazard.sync;
        sync(&mut self.disk, fails)?;
        push_sync(&mut self.log, fails)?;
        self.place.sync();
        self.short = false;
        Ok(fails)
    }
}
