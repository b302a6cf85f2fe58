//! The other ends of a site's connections.
use crate::calls::{called, link_pt, next};
use crate::{Run, setup};
use anyhow::{bail, ensure};
use gw_bytes::LONGEST_CHUNK;
use gw_site::What;
use net_site::NetSite;
use std::alloc::Global;
use std::io;
use std::net::{SocketAddr, TcpListener, TcpStream};

/// Where the tills' listener, that of the first terminal and that of a plain echo are.
#[derive(Clone, Copy)]
pub(crate) struct Addresses {
    pub(crate) near: SocketAddr,
    pub(crate) far: SocketAddr,
    pub(crate) plain: SocketAddr,
}

impl Addresses {
    /// Where the listener of the terminal of this number is.
    pub(crate) fn terminal(&self, number: usize) -> SocketAddr {
        let number = u16::try_from(number).unwrap_or(0);
        SocketAddr::new(self.far.ip(), self.far.port().saturating_add(number))
    }
}

/// The other ends of a site's connections. Tills have the numbers from 1 on, in their order.
#[derive(Drop)]
pub(crate) struct Peers {
    pub(crate) tills: Vec<TcpStream>,
    pub(crate) terminals: Vec<TcpStream>,
}

impl Peers {
    /// None yet.
    pub(crate) fn new(alloc: Global) -> Peers {
        Peers {
            tills: Vec::new(alloc),
            terminals: Vec::new(alloc),
        }
    }

    /// How many they are.
    pub(crate) fn count(&self) -> usize {
        self.tills.len().saturating_add(self.terminals.len())
    }
}

/// A connection to this address, which sends at once what is written.
pub(crate) fn connect(rt: &HostRuntime, address: SocketAddr) -> io::Result<TcpStream> {
    let stream = TcpStream::connect(rt, address)?;
    stream.set_nodelay(true)?;
    Ok(stream)
}

/// The connection that the listener has waiting, which sends at once what is written.
pub(crate) fn accept(listener: &TcpListener) -> io::Result<TcpStream> {
    let (stream, _) = listener.accept()?;
    stream.set_nodelay(true)?;
    Ok(stream)
}

/// Has the site open a till that has connected.
fn open_till(site: &mut NetSite<&HostRuntime>) -> anyhow::Result<()> {
    let mut buf = [0; LONGEST_CHUNK];
    match next(site, &mut buf) {
        What::TillOpened(_) => Ok(()),
        _ => bail!("no till opens"),
    }
}

/// Connects one more till.
fn connect_till(
    rt: &HostRuntime,
    site: &mut NetSite<&HostRuntime>,
    near: SocketAddr,
) -> anyhow::Result<TcpStream> {
    let till = connect(rt, near)?;
    open_till(site)?;
    Ok(till)
}

/// Has the site link its terminal of this number, which listens at this address.
fn connect_terminal(
    rt: &HostRuntime,
    site: &mut NetSite<&HostRuntime>,
    pt: usize,
    address: SocketAddr,
) -> anyhow::Result<TcpStream> {
    let listener = TcpListener::bind(rt, address)?;
    called(link_pt(site, u16::try_from(pt)?))?;
    Ok(accept(&listener)?)
}

fn connect_tills(
    rt: &HostRuntime,
    site: &mut NetSite<&HostRuntime>,
    near: SocketAddr,
    tills: &mut Vec<TcpStream>,
    count: usize,
) -> anyhow::Result<()> {
    for _ in 0..count {
        tills.push(connect_till(rt, site, near)?)?;
    }
    Ok(())
}

fn connect_terminals(
    rt: &HostRuntime,
    run: &Run<'_>,
    site: &mut NetSite<&HostRuntime>,
    terminals: &mut Vec<TcpStream>,
    count: usize,
) -> anyhow::Result<()> {
    for pt in 0..count {
        let address = run.addresses.terminal(pt);
        terminals.push(connect_terminal(rt, site, pt, address)?)?;
    }
    Ok(())
}

/// Opens the site, and connects so many tills and terminals.
pub(crate) fn open_connected(
    rt: &HostRuntime,
    run: &Run<'_>,
    site: &mut NetSite<&HostRuntime>,
    peers: &mut Peers,
    tills: usize,
    terminals: usize,
) -> anyhow::Result<()> {
    setup::open(rt, run, site, terminals)?;
    connect_tills(rt, site, run.addresses.near, &mut peers.tills, tills)?;
    connect_terminals(rt, run, site, &mut peers.terminals, terminals)?;
    ensure!(
        peers.tills.len() == tills && peers.terminals.len() == terminals,
        "a connection is missing"
    );
    Ok(())
}
