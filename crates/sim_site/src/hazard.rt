//! What fail and power lines have armed.
ghost use Rattle.std.specs.Prelude.{◌≡◌, IfOk, OnOk};
ghost use Rattle.gw_script.specs.site.Hazards.{armed, is_failing, kept_by_crash, least, links_with, links_without, no_hazard, sends_with, sends_without, takes_most};
ghost use Rattle.sim_script.specs.Values.{failing_value};
ghost use Rattle.sim_site.specs.Hazards.{hazard_value, links_value, sends_value};

use sim_script::{FailingCall, ImageKind};
use std::alloc::{AllocError, Global};
use std::collections::{BTreeMap, BTreeSet};

/// The power fails after so many more calls, at least one, and leaves this.
#[derive(Clone, Copy)]
pub(crate) struct Armed {
    pub(crate) calls: u64,
    pub(crate) kind: ImageKind,
}

/// The next calls of these kinds fail.
#[derive(Drop)]
pub(crate) struct Hazard {
    pub(crate) open: bool,
    /// Of these terminals.
    pub(crate) links: BTreeSet<u16>,
    /// By the till's number, how many bytes a send takes at most.
    pub(crate) tills: BTreeMap<u64, u64>,
    /// By the terminal's number.
    pub(crate) pts: BTreeMap<u64, u64>,
    pub(crate) write: bool,
    pub(crate) sync: bool,
    pub(crate) length: bool,
    pub(crate) read: bool,
    pub(crate) power: Option<Armed>,
}

/// How many bytes the next send on the connection of this number takes, where it fails: the least number of all lines for it.
pub(crate) fn takes_most(sends: &BTreeMap<u64, u64>, number: u64) -> Option<u64>
    ensures { result ≡ takes_most (sends_value sends.now) number }
{
    sends.get(&number).copied()
}

/// One more fail line for sends on the connection of this number: of two lines for it the lesser number holds.
fn add_send(sends: &mut BTreeMap<u64, u64>, number: u64, most: u64) -> Result<(), AllocError>
    ensures { OnOk result (sends_value sends.new ≡ sends_with (sends_value sends.old) number most) }
{
    let least = lesser(takes_most(sends, number), most);
    sends.insert(number, least)?;
    Ok(())
}

/// One more fail line for the link of this terminal.
fn add_link(links: &mut BTreeSet<u16>, pt: u16) -> Result<(), AllocError>
    ensures { OnOk result (links_value links.new ≡ links_with (links_value links.old) pt) }
{
    links.insert(pt)?;
    Ok(())
}

/// The lesser of these numbers, where there are two.
fn lesser(other: Option<u64>, most: u64) -> u64
    ensures { result ≡ least other most }
{
    match other {
        None => most,
        Some(other) => other.min(most),
    }
}

/// All fail lines for sends on the connection of this number are used up.
pub(crate) fn drop_sends(sends: &mut BTreeMap<u64, u64>, number: u64)
    ensures { sends_value sends.new ≡ sends_without (sends_value sends.old) number }
{
    sends.remove(&number);
}

/// All fail lines for the link of this terminal are used up.
pub(crate) fn drop_links(links: &mut BTreeSet<u16>, pt: u16)
    ensures { links_value links.new ≡ links_without (links_value links.old) pt }
{
    links.remove(&pt);
}

/// Whether the link of this terminal fails.
pub(crate) fn is_failing(links: &BTreeSet<u16>, pt: u16) -> bool
    ensures { result ≡ is_failing (links_value links.now) pt }
{
    links.contains(&pt)
}

impl Hazard {
    /// No call fails.
    pub(crate) fn none(alloc: Global) -> Hazard
        ensures { hazard_value result ≡ no_hazard }
    {
        Hazard {
            open: false,
            links: BTreeSet::new(alloc),
            tills: BTreeMap::new(alloc),
            pts: BTreeMap::new(alloc),
            write: false,
            sync: false,
            length: false,
            read: false,
            power: None,
        }
    }

    /// Arms what a fail line says.
    pub(crate) fn arm(&mut self, failing: FailingCall) -> Result<(), AllocError>
        ensures { OnOk result (hazard_value self.new ≡ armed (failing_value failing) (hazard_value self.old)) }
    {
        match failing {
            FailingCall::Open => self.open = true,
            FailingCall::Link(pt) => return add_link(&mut self.links, pt),
            FailingCall::SendTill(till, most) => return add_send(&mut self.tills, till, most),
            FailingCall::SendPt(pt, most) => return add_send(&mut self.pts, u64::from(pt), most),
            FailingCall::Write => self.write = true,
            FailingCall::Sync => self.sync = true,
            FailingCall::Length => self.length = true,
            FailingCall::Read => self.read = true,
        }
        Ok(())
    }

    /// What a power failure forgets is forgotten: a failing open, length or read still waits for its call.
    pub(crate) fn forget(&mut self)
        ensures { hazard_value self.new ≡ kept_by_crash (hazard_value self.old) }
    {
        self.links.clear();
        self.tills.clear();
        self.pts.clear();
        self.write = false;
        self.sync = false;
        self.power = None;
    }
}
