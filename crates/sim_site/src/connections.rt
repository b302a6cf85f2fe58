//! The connections of a run.
ghost use Rattle.std.specs.Prelude.{◌≡◌, nat_le, OnOk};
ghost use Rattle.gw_site.specs.Outside.{Outside, is_connected, no_run, outside_after};
ghost use Rattle.gw_site.specs.declared.turn.Turn.TheVariants.{CutPt, CutTill, Linked, Opened};
ghost use Rattle.gw_script.specs.site.Hazards.{is_reached};
ghost use Rattle.gw_script.specs.site.Playing.{applies};
ghost use Rattle.sim_script.specs.Values.{failing_value, script_event_value};
ghost use Rattle.sim_site.specs.Numbers.{least_till, numbers_value, numbers_with, numbers_without};

use gw_site::What;
use sim_script::{FailingCall, ScriptEvent};
use std::alloc::{AllocError, Global};
use std::collections::BTreeSet;

/// The connections of a run, by their numbers.
#[derive(Drop)]
pub(crate) struct Connections {
    pub(crate) tills: BTreeSet<u64>,
    /// The till of the run that opened last.
    pub(crate) opened: Option<u64>,
    pub(crate) links: BTreeSet<u16>,
}

/// Whether a till of this number may open.
fn is_above(till: u64, opened: Option<u64>) -> bool
    ensures { result ≡ nat_le (least_till opened) till }
{
    match opened {
        None => true,
        Some(last) => last < till,
    }
}

/// A till is there.
fn add_till(tills: &mut BTreeSet<u64>, till: u64) -> Result<(), AllocError>
    ensures { OnOk result (numbers_value tills.new ≡ numbers_with (numbers_value tills.old) till) }
{
    tills.insert(till)?;
    Ok(())
}

/// A till is gone.
fn drop_till(tills: &mut BTreeSet<u64>, till: u64)
    ensures { numbers_value tills.new ≡ numbers_without (numbers_value tills.old) till }
{
    tills.remove(&till);
}

/// A terminal is linked.
fn add_link(links: &mut BTreeSet<u16>, pt: u16) -> Result<(), AllocError>
    ensures { OnOk result (numbers_value links.new ≡ numbers_with (numbers_value links.old) pt) }
{
    links.insert(pt)?;
    Ok(())
}

/// A terminal is no longer linked.
fn drop_link(links: &mut BTreeSet<u16>, pt: u16)
    ensures { numbers_value links.new ≡ numbers_without (numbers_value links.old) pt }
{
    links.remove(&pt);
}

impl Connections {
    ghost use Rattle.sim_site.specs.Connected.{HasConnections, IsFollowed};

    /// No connection is open, and no till has opened.
    pub(crate) fn none(alloc: Global) -> Connections
        ensures { (o : Outside) → HasConnections (no_run o) result }
    {
        Connections {
            tills: BTreeSet::new(alloc),
            opened: None,
            links: BTreeSet::new(alloc),
        }
    }

    /// A run begins.
    pub(crate) fn clear(&mut self)
        ensures { (o : Outside) → HasConnections (no_run o) self.new }
    {
        self.tills.clear();
        self.opened = None;
        self.links.clear();
    }

    /// Whether this till is there.
    fn has_till(&self, till: u64) -> bool
        ensures { (o : Outside) → HasConnections o self.now → result ≡ is_connected o.tills till }
    {
        self.tills.contains(&till)
    }

    /// Whether this terminal is linked.
    fn has_link(&self, pt: u16) -> bool
        ensures { (o : Outside) → HasConnections o self.now → result ≡ is_connected o.links pt }
    {
        self.links.contains(&pt)
    }

    /// Whether an event isn't skipped.
    pub(crate) fn applies(&self, event: &ScriptEvent) -> bool
        ensures { (o : Outside) → HasConnections o self.now → result ≡ applies o (script_event_value event.now) }
    {
        match event {
            ScriptEvent::Open(till) => is_above(*till, self.opened),
            ScriptEvent::Close(till) => self.has_till(*till),
            ScriptEvent::FromTill(till, _) => self.has_till(*till),
            ScriptEvent::FromPt(pt, _) => self.has_link(*pt),
            ScriptEvent::Lose(pt) => self.has_link(*pt),
            ScriptEvent::Tick => true,
        }
    }

    /// Whether a fail line isn't skipped.
    pub(crate) fn reaches(&self, failing: FailingCall) -> bool
        ensures { (o : Outside) → HasConnections o self.now → result ≡ is_reached o (failing_value failing) }
    {
        match failing {
            FailingCall::SendTill(till, _) => self.has_till(till),
            FailingCall::SendPt(pt, _) => self.has_link(pt),
            FailingCall::Open
            | FailingCall::Link(_)
            | FailingCall::Write
            | FailingCall::Sync
            | FailingCall::Length
            | FailingCall::Read => true,
        }
    }

    /// A till opens.
    fn open(&mut self, till: u64) -> Result<(), AllocError>
        ensures { OnOk result ((o : Outside) → HasConnections o self.old → HasConnections (outside_after o (Opened till)) self.new) }
    {
        add_till(&mut self.tills, till)?;
        self.opened = Some(till);
        Ok(())
    }

    /// A poll has brought this.
    pub(crate) fn follow(&mut self, what: What) -> Result<(), AllocError>
        ensures { OnOk result (IsFollowed self.old self.new what) }
    {
        match what {
            What::TillOpened(till) => self.open(till),
            What::TillClosed(till) => {
                self.cut_till(till);
                Ok(())
            }
            What::PtClosed(pt) => {
                self.cut_pt(pt);
                Ok(())
            }
            What::TillBytes(_, _) | What::PtBytes(_, _) | What::Nothing | What::Stopped => Ok(()),
        }
    }

    /// A terminal is linked; an earlier connection of it is replaced.
    pub(crate) fn link(&mut self, pt: u16) -> Result<(), AllocError>
        ensures { OnOk result ((o : Outside) → HasConnections o self.old → HasConnections (outside_after o (Linked pt)) self.new) }
    {
        add_link(&mut self.links, pt)
    }

    /// A till's connection is closed.
    pub(crate) fn cut_till(&mut self, till: u64)
        ensures { (o : Outside) → HasConnections o self.old → HasConnections (outside_after o (CutTill till)) self.new }
    {
        drop_till(&mut self.tills, till);
    }

    /// A terminal's connection is closed.
    pub(crate) fn cut_pt(&mut self, pt: u16)
        ensures { (o : Outside) → HasConnections o self.old → HasConnections (outside_after o (CutPt pt)) self.new }
    {
        drop_link(&mut self.links, pt);
    }
}
