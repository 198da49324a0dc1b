// A clock over the system's.
ghost use Rattle.std.specs.Prelude.{◌≡◌};

use crate::traits::Clock;
use std::time::{self, Instant, SystemTime, UNIX_EPOCH};

/// A clock that tells the milliseconds since it was made, after those of its first moment. They go on steadily, also where the
/// time of day is set. Where the system's clock fails, it tells its last answer again, at first its first moment.
#[derive(Drop)]
pub struct WallClock<'a, C: time::Clock> {
    clock: &'a C,
    start: Option<Instant>,
    first: u64,
    last: u64,
}

// The milliseconds since 1970; 0 where the system does not tell them, or its time of day is before that.
fn time_of_day<C: time::Clock>(clock: &C) -> u64 {
    match SystemTime::now(clock) {
        Ok(now) => match now.duration_since(UNIX_EPOCH) {
            Ok(passed) => u64::try_from(passed.as_millis()).unwrap_or(0),
            Err(_) => 0,
        },
        Err(_) => 0,
    }
}

impl<'a, C: time::Clock> WallClock<'a, C> {
    /// A clock that starts now, at 0.
    pub fn new(clock: &'a C) -> Self
        ensures { result.last ≡ 0 }
    {
        WallClock::starting_at(clock, 0)
    }

    /// A clock that starts now, at the time of day in milliseconds since 1970: so the moments of one program go on after those of
    /// another that ended before.
    pub fn since_1970(clock: &'a C) -> Self {
        WallClock::starting_at(clock, time_of_day(clock))
    }

    fn starting_at(clock: &'a C, first: u64) -> Self
        ensures { result.last ≡ first }
    {
        WallClock {
            clock,
            start: Instant::now(clock).ok(),
            first,
            last: first,
        }
    }
}

impl<C: time::Clock> Clock for WallClock<'_, C> {
    ghost tells = { λ c m d. m ≡ d.last };

    fn now(&mut self) -> u64 {
        if let Some(start) = self.start {
            if let Ok(passed) = start.elapsed(self.clock) {
                let passed = u64::try_from(passed.as_millis()).unwrap_or(u64::MAX);
                self.last = self.first.saturating_add(passed);
            }
        }
        self.last
    }
}
