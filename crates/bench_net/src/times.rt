//! Times of the site's work and of the system's, side by side.
use std::io;
use std::time::{Duration, Instant};

/// What the site took, and what the system's own calls took for the same, in the same rounds.
#[derive(Clone, Copy)]
pub(crate) struct Times {
    pub(crate) site: Duration,
    pub(crate) plain: Duration,
}

/// No time yet.
pub(crate) const NONE: Times = Times {
    site: Duration::ZERO,
    plain: Duration::ZERO,
};

/// Adds what passed since `start`.
pub(crate) fn add(rt: &HostRuntime, sum: &mut Duration, start: Instant) -> io::Result<()> {
    *sum = sum.saturating_add(start.elapsed(rt)?);
    Ok(())
}

/// Nanoseconds of each of so many.
pub(crate) fn nanoseconds_each(all: Duration, count: u64) -> u64 {
    u64::try_from(all.as_nanos()).unwrap_or(u64::MAX) / count.max(1)
}

/// How many times as long the site took, in hundredths.
fn ratio(times: Times) -> u64 {
    let site = times.site.as_nanos().saturating_mul(100);
    u64::try_from(site / times.plain.as_nanos().max(1)).unwrap_or(u64::MAX)
}

fn print_each(rt: &HostRuntime, site: u64, plain: u64, ratio: u64) -> io::Result<()> {
    println!(rt;
        "  each: {site} ns by the site, {plain} ns by the system's own calls, ratio {}.{:02}",
        ratio / 100,
        ratio % 100
    )
}

/// Prints the times of so many.
pub(crate) fn print(rt: &HostRuntime, times: Times, count: u64) -> io::Result<()> {
    let site = nanoseconds_each(times.site, count);
    let plain = nanoseconds_each(times.plain, count);
    print_each(rt, site, plain, ratio(times))
}
