//! A site's calls, which give plain values, so that the measurements need nothing of its contracts.
use anyhow::{anyhow, ensure};
use gw_base::Setup;
use gw_bytes::LONGEST_CHUNK;
use gw_site::{Failed, Polled, Site, What};
use net_site::NetSite;

/// What a call on the site has returned.
pub(crate) fn called(returned: Result<(), Failed>) -> anyhow::Result<()> {
    match returned {
        Ok(()) => Ok(()),
        Err(Failed) => Err(anyhow!("a call on the site has failed")),
    }
}

/// Opens the site, where the setup is within the limits.
pub(crate) fn open(site: &mut NetSite<&HostRuntime>, setup: &Setup) -> anyhow::Result<()> {
    ensure!(
        setup.is_within_limits(),
        "the setup isn't within the limits"
    );
    called(site.open(setup))
}

/// What the next poll brings, and the moment.
fn polled(site: &mut NetSite<&HostRuntime>, buf: &mut [u8; LONGEST_CHUNK]) -> Polled {
    site.poll(buf)
}

/// What the next poll brings.
pub(crate) fn poll(site: &mut NetSite<&HostRuntime>, buf: &mut [u8; LONGEST_CHUNK]) -> What {
    polled(site, buf).what
}

/// What the next poll brings that brings something, within a few seconds.
pub(crate) fn next(site: &mut NetSite<&HostRuntime>, buf: &mut [u8; LONGEST_CHUNK]) -> What {
    for _ in 0..100 {
        let what = poll(site, buf);
        if what != What::Nothing {
            return what;
        }
    }
    What::Nothing
}

/// The first bytes of the buffer, of which a poll has brought so many.
pub(crate) fn brought(buf: &[u8; LONGEST_CHUNK], count: usize) -> &[u8] {
    match buf.as_slice().get(..count) {
        Some(bytes) => bytes,
        None => buf.as_slice(),
    }
}

/// Sends the bytes to the till.
pub(crate) fn send_till(
    site: &mut NetSite<&HostRuntime>,
    till: u64,
    bytes: &[u8],
) -> Result<(), Failed> {
    site.send_till(till, bytes)
}

/// Connects the terminal of this number.
pub(crate) fn link_pt(site: &mut NetSite<&HostRuntime>, pt: u16) -> Result<(), Failed> {
    site.link_pt(pt)
}

/// Writes to the site's file.
pub(crate) fn write_at(
    site: &mut NetSite<&HostRuntime>,
    offset: u64,
    bytes: &[u8],
) -> Result<(), Failed> {
    site.write_at(offset, bytes)
}

/// Syncs the site's file.
pub(crate) fn sync(site: &mut NetSite<&HostRuntime>) -> Result<(), Failed> {
    site.sync()
}

/// The length of the site's file.
pub(crate) fn length(site: &mut NetSite<&HostRuntime>) -> anyhow::Result<u64> {
    match site.length() {
        Ok(length) => Ok(length),
        Err(Failed) => Err(anyhow!("a call on the site has failed")),
    }
}
