//! The system's clock.
ghost use Rattle.std.specs.Prelude.{false};

use mr_base::Clock;
use std::rt;

/// The system's clock in whole seconds. Where it can't be read, or stands before 1970, it gives what it gave last, at
/// first 0.
#[derive(Drop)]
pub struct SystemClock<R: rt::Clock> {
    rt: R,
    last: u64,
}

impl<R: rt::Clock> SystemClock<R> {
    pub fn new(rt: R) -> SystemClock<R> {
        SystemClock { rt, last: 0 }
    }
}

impl<R: rt::Clock> Clock for SystemClock<R> {
    ghost clock = { λ c. record { tells = false; values = λ k. 0 } };

    fn now(&mut self) -> u64 {
        if let Ok(since) = self.rt.since_1970() {
            self.last = since.as_secs();
        }
        self.last
    }
}
