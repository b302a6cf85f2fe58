//! A site's setup, and its opening.
use crate::connected::Addresses;
use crate::{Run, calls};
use anyhow::Context;
use gw_base::{Currency, Ident, Pt, Pts, Setup, Text};
use net_site::NetSite;
use std::alloc::AllocError;
use std::net::SocketAddr;

fn identifier(bytes: &[u8]) -> anyhow::Result<Ident<40>> {
    Ident::of(bytes).context("an identifier")
}

fn address_text(rt: &HostRuntime, address: SocketAddr) -> Result<Text, AllocError> {
    Ok(Text::new(format!(in rt.alloc(); "{address}")?))
}

fn path_text(rt: &HostRuntime, path: &str) -> Result<Text, AllocError> {
    Ok(Text::new(String::from_str(rt.alloc(), path)?))
}

fn poi(rt: &HostRuntime, number: usize) -> anyhow::Result<Ident<40>> {
    let poi = format!(in rt.alloc(); "T{number}")?;
    identifier(poi.as_str().as_bytes())
}

fn terminal_of(poi: Ident<40>, address: Text) -> Pt {
    Pt {
        poi,
        address,
        password: [0; 3],
        currency: Currency::Eur,
        config: 0,
        none: 0,
        answer: 5,
        command: 60,
    }
}

fn terminal(rt: &HostRuntime, number: usize, address: SocketAddr) -> anyhow::Result<Pt> {
    let poi = poi(rt, number)?;
    Ok(terminal_of(poi, address_text(rt, address)?))
}

/// So many terminals, each at its address.
fn terminals(rt: &HostRuntime, count: usize, addresses: &Addresses) -> anyhow::Result<Vec<Pt>> {
    let mut pts = Vec::new(rt.alloc());
    for number in 0..count {
        pts.push(terminal(rt, number, addresses.terminal(number))?)?;
    }
    Ok(pts)
}

fn setup_of(name: Ident<40>, listen: Text, journal: Text, terminals: Vec<Pt>) -> Setup {
    Setup {
        name,
        listen,
        journal,
        line: 0,
        wait: 60,
        slots: 1000,
        terminals: Pts::new(terminals),
    }
}

fn setup(rt: &HostRuntime, run: &Run<'_>, count: usize) -> anyhow::Result<Setup> {
    let name = identifier(b"GATEWAY")?;
    let listen = address_text(rt, run.addresses.near)?;
    let journal = path_text(rt, run.journal)?;
    let terminals = terminals(rt, count, &run.addresses)?;
    Ok(setup_of(name, listen, journal, terminals))
}

/// Opens the site with so many terminals.
pub(crate) fn open(
    rt: &HostRuntime,
    run: &Run<'_>,
    site: &mut NetSite<&HostRuntime>,
    terminals: usize,
) -> anyhow::Result<()> {
    let setup = setup(rt, run, terminals)?;
    calls::open(site, &setup)
}
