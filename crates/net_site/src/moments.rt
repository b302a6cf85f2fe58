//! The moments of a site, which never go back.
ghost use Rattle.std.specs.Prelude.{◌≤◌};

use std::time::Clock;

/// A second, in nanoseconds.
const SECOND: u128 = 1_000_000_000;

/// The last moment, in nanoseconds since 1970-01-01T00:00:00Z, and the monotonic clock then.
///
/// Where the clock is set back the moments go on at half the pace of the monotonic one, until the clock has caught up with them: so no deadline
/// waits for as long as the clock was set back.
#[derive(Drop)]
pub(crate) struct Moments {
    last: u128,
    monotonic: u128,
}

impl Moments {
    /// None yet.
    pub(crate) fn new() -> Moments {
        Moments {
            last: 0,
            monotonic: 0,
        }
    }

    /// The moment by the two clocks.
    fn go_on(&mut self, clock: u128, monotonic: u128)
        ensures { self.old.last ≤ self.new.last }
    {
        let passed = monotonic.saturating_sub(self.monotonic);
        self.monotonic = monotonic;
        if clock >= self.last {
            self.last = clock;
        } else {
            self.last = self.last.saturating_add(passed / 2);
        }
    }

    /// The moment, in seconds; the last one where a clock can't be read, since a poll can't fail.
    pub(crate) fn read<R: Clock>(&mut self, rt: &R) -> i64
        ensures { self.old.last ≤ self.new.last }
    {
        if let (Ok(clock), Ok(monotonic)) = (rt.since_1970(), rt.monotonic()) {
            self.go_on(clock.as_nanos(), monotonic.as_nanos());
        }
        i64::try_from(self.last / SECOND).unwrap_or(i64::MAX)
    }
}
