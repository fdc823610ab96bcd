//! The system's clock.
use crate::clock::Clock;
use std::time::{SystemTime, UNIX_EPOCH};

/// The system's clock. Where the system gives no moment, the last one is shown again, at first 0.
#[derive(Drop)]
pub struct SystemClock<'r, R> {
    system: &'r R,
    last: u64,
}

impl<'r, R: std::rt::Clock> SystemClock<'r, R> {
    /// Over the system's clock, whose moments are seconds since 1970. None was shown.
    pub fn new(system: &'r R) -> SystemClock<'r, R> {
        SystemClock { system, last: 0 }
    }
}

/// The moment that the system gives.
fn system_moment<R: std::rt::Clock>(system: &R) -> Option<u64> {
    let now = SystemTime::now(system).ok()?;
    let since = now.duration_since(UNIX_EPOCH).ok()?;
    Some(since.as_secs())
}

impl<'r, R: std::rt::Clock> Clock for SystemClock<'r, R> {
    ghost use Rattle.std.specs.Prelude.{None};

    ghost shown = { λ _. None };

    ghost coming = { λ _. None };

    fn now(&mut self) -> u64 {
        if let Some(moment) = system_moment(self.system) {
            self.last = moment;
        }
        self.last
    }
}
