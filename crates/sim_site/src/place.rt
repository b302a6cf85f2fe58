//! How far a script is played, and how calls go on from there.
ghost use Rattle.std.specs.Prelude.{◌≡◌, ◌||◌, ◌==◌, List, ℕ, None, IfOk, OnOk, is_some};
ghost use Rattle.std.specs.List.{list_all};
ghost use Rattle.gw_base.specs.declared.setup.Setup.{Setup};
ghost use Rattle.gw_site.specs.Steps.{CutPtCall, CutTillCall, LengthCall, LinkCall, OpenCall, ReadCall, SendPtCall, SendTillCall, SyncCall, WriteCall};
ghost use Rattle.gw_script.specs.site.Calls.{set_to_fail};
ghost use Rattle.gw_script.specs.site.Hazards.{is_failing, takes_most};
ghost use Rattle.gw_script.specs.Decode.{is_empty};
ghost use Rattle.gw_script.specs.site.Playing.{begins_with, counted, early_lines, restarted};
ghost use Rattle.sim_script.specs.Values.{image_value, lines_value, script_line_value};
ghost use Rattle.sim_site.specs.Early.{is_early_line};
ghost use Rattle.sim_script.specs.declared.line.ScriptLine.{ScriptLine};
ghost use Rattle.gw_site.specs.Outside.{Outside};
ghost use Rattle.sim_site.specs.Comings.{MeetsComing};
ghost use Rattle.sim_site.specs.Connected.{HasConnections};
ghost use Rattle.sim_site.specs.Hazards.{links_value, sends_value};
ghost use Rattle.sim_site.specs.Peering.{IsUsedUp, event_value, peers_value};

use crate::connections::Connections;
use crate::hazard::{Armed, Hazard, drop_links, drop_sends, is_failing, takes_most};
use crate::peers::Peers;
use crate::sent::taken;
use crate::sought::{early_hazard, is_early};
use pt_core::Terminal;
use sim_script::{ImageKind, ScriptEvent, ScriptLine};
use std::alloc::{AllocError, Global};

/// How far a script is played, between two calls.
#[derive(Drop)]
pub(crate) struct Place {
    /// The index of the first line that is left.
    pub(crate) at: usize,
    /// No line that polls was passed yet: fail lines that took effect before the first run are passed over.
    pub(crate) early: bool,
    /// The moment of the last `at` line passed.
    pub(crate) moment: i64,
    pub(crate) hazard: Hazard,
    /// The power has failed, and leaves this.
    pub(crate) off: Option<ImageKind>,
    /// The terminals that are played.
    pub(crate) peers: Peers,
}

/// Whether these lines are fail lines that take effect before the first run.
fn are_early(lines: &[ScriptLine]) -> bool
    ensures { result ≡ is_empty (early_lines (lines_value lines.now)) }
{
    lines_are_early(lines)
}

/// Whether each of these lines is a fail line that takes effect before the first run.
fn lines_are_early(lines: &[ScriptLine]) -> bool
    ensures { result ≡ list_all (λ line. is_early_line (script_line_value line)) lines.now }
{
    lines.iter().all(|line| is_early_line(line))
}

/// Whether the line is a fail line that takes effect before the first run.
fn is_early_line(line: &ScriptLine) -> bool
    ensures { result ≡ is_early_line (script_line_value line.now) }
{
    match line {
        ScriptLine::Fail(failing) => is_early(*failing),
        ScriptLine::At(_)
        | ScriptLine::Poll(_)
        | ScriptLine::Power(_, _)
        | ScriptLine::ForgetPower => false,
    }
}

impl Place {
    ghost use Rattle.sim_site.specs.Places.{Moves, place_value};

    /// Before the first line.
    pub(crate) fn first(
        alloc: Global,
        lines: &[ScriptLine],
        terminals: Vec<Terminal>,
    ) -> Result<Place, AllocError>
        ensures place { IfOk result (λ place. place_value lines.now place ≡ begins_with terminals.items (lines_value lines.now)) }
        ensures power { IfOk result (λ place. place.off ≡ None) }
    {
        Ok(Place {
            at: 0,
            early: true,
            moment: 0,
            hazard: early_hazard(alloc, lines)?,
            off: None,
            peers: Peers::of(alloc, terminals),
        })
    }

    /// Whether none of these lines is left.
    pub(crate) fn is_last(&self, lines: &[ScriptLine]) -> bool
        ensures { result ≡ is_empty (place_value lines.now self.now).lines }
    {
        if self.at >= lines.len() {
            return true;
        }
        self.early && are_early(&lines[self.at..])
    }

    /// The power is to fail after so many more calls, at once after none, unless it has failed already.
    pub(crate) fn fail_after(&mut self, calls: u64, kind: ImageKind)
        ensures place { (lines : List ScriptLine) → place_value lines self.new ≡ set_to_fail calls (image_value kind) (place_value lines self.old) }
        ensures power { is_some self.new.off ≡ (is_some self.old.off || (calls == 0)) }
    {
        if self.off.is_some() {
            return;
        }
        if calls == 0 {
            self.hazard.power = None;
            self.off = Some(kind);
        } else {
            self.hazard.power = Some(Armed { calls, kind });
        }
    }

    /// A call was made that counts for a power failure.
    pub(crate) fn count(&mut self)
        ensures { (lines : List ScriptLine) → place_value lines self.new ≡ counted (place_value lines self.old) }
    {
        let Some(armed) = self.hazard.power else {
            return;
        };
        if armed.calls <= 1 {
            self.hazard.power = None;
            self.off = Some(armed.kind);
        } else {
            self.hazard.power = Some(Armed {
                calls: armed.calls - 1,
                kind: armed.kind,
            });
        }
    }

    /// The site is opened. True where this fails.
    pub(crate) fn open(&mut self) -> bool
        ensures fails { result ≡ self.old.hazard.open }
        ensures moves { (setup : Setup) → Moves self.old self.new (OpenCall setup) }
    {
        let fails = self.hazard.open;
        self.hazard.open = false;
        self.count();
        fails
    }

    /// Bytes are sent to a till. How many it takes, where the send fails.
    pub(crate) fn send_till(&mut self, till: u64) -> Option<u64>
        ensures most { result ≡ takes_most (sends_value self.old.hazard.tills) till }
        ensures moves { (bytes : List ℕ) → Moves self.old self.new (SendTillCall till bytes) }
    {
        let most = takes_most(&self.hazard.tills, till);
        drop_sends(&mut self.hazard.tills, till);
        self.count();
        most
    }

    /// Bytes are sent to a terminal, which hears those that the send takes where it is played.
    pub(crate) fn send_pt(&mut self, alloc: Global, pt: u16, bytes: &[u8]) -> Result<(), AllocError>
        ensures { OnOk result (Moves self.old self.new (SendPtCall pt bytes.now)) }
    {
        let number = u64::from(pt);
        let most = takes_most(&self.hazard.pts, number);
        self.peers.hear(alloc, pt, taken(bytes, most))?;
        drop_sends(&mut self.hazard.pts, number);
        self.count();
        Ok(())
    }

    /// A terminal is linked. True where this fails.
    pub(crate) fn link(&mut self, pt: u16) -> bool
        ensures fails { result ≡ is_failing (links_value self.old.hazard.links) pt }
        ensures moves { Moves self.old self.new (LinkCall pt) }
    {
        let fails = is_failing(&self.hazard.links, pt);
        self.peers.link_unless(pt, fails);
        drop_links(&mut self.hazard.links, pt);
        self.count();
        fails
    }

    /// A connection is cut.
    pub(crate) fn cut(&mut self)
        ensures tills { (till : ℕ) → Moves self.old self.new (CutTillCall till) }
        ensures pts { (pt : ℕ) → Moves self.old self.new (CutPtCall pt) }
    {
        self.count();
    }

    /// The file's length is asked. True where this fails.
    pub(crate) fn length(&mut self) -> bool
        ensures fails { result ≡ self.old.hazard.length }
        ensures moves { Moves self.old self.new LengthCall }
    {
        let fails = self.hazard.length;
        self.hazard.length = false;
        fails
    }

    /// Bytes of the file are asked. True where this fails.
    pub(crate) fn read(&mut self) -> bool
        ensures fails { result ≡ self.old.hazard.read }
        ensures moves { (offset size : ℕ) → Moves self.old self.new (ReadCall offset size) }
    {
        let fails = self.hazard.read;
        self.hazard.read = false;
        fails
    }

    /// Bytes are written. True where this fails.
    pub(crate) fn write(&mut self) -> bool
        ensures fails { result ≡ self.old.hazard.write }
        ensures moves { (offset : ℕ) (bytes : List ℕ) → Moves self.old self.new (WriteCall offset bytes) }
    {
        let fails = self.hazard.write;
        self.hazard.write = false;
        self.count();
        fails
    }

    /// The file is synced. True where this fails.
    pub(crate) fn sync(&mut self) -> bool
        ensures fails { result ≡ self.old.hazard.sync }
        ensures moves { Moves self.old self.new SyncCall }
    {
        let fails = self.hazard.sync;
        self.hazard.sync = false;
        self.count();
        fails
    }

    /// What a poll brings of the played terminals, if it brings anything of them.
    pub(crate) fn next(&mut self, connections: &Connections) -> Option<ScriptEvent>
        ensures met { (o : Outside) (lines : List ScriptLine) → HasConnections o connections.now
            → MeetsComing o lines self.old self.new (event_value result) }
        ensures left { IsUsedUp (event_value result) (peers_value self.new.peers).coming }
        ensures power { self.new.off ≡ self.old.off }
    {
        self.peers.next(connections)
    }

    /// The power, which had failed, is there again.
    pub(crate) fn restart(&mut self)
        ensures place { (lines : List ScriptLine) → place_value lines self.new ≡ restarted (place_value lines self.old) }
        ensures power { self.new.off ≡ None }
    {
        self.hazard.forget();
        self.off = None;
        self.peers.cut_all();
    }
}
