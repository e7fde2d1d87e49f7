use alto_serve::Clock;
use std::rt;
use std::time::{SystemTime, UNIX_EPOCH};

/// The real clock.
#[derive(Drop)]
pub struct SystemClock<'a, R: rt::Clock> {
    rt: &'a R,
}

impl<'a, R: rt::Clock> SystemClock<'a, R> {
    /// The clock of a runtime.
    pub fn new(rt: &'a R) -> Self {
        SystemClock { rt }
    }
}

impl<R: rt::Clock> Clock for SystemClock<'_, R> {
    ghost use Rattle.std.specs.Prelude.{None};

    ghost tells = { λ _. None };

    /// The seconds since 1970, and 0 where the clock can't be read.
    fn now(&self) -> u64 {
        let Ok(now) = SystemTime::now(self.rt) else {
            return 0;
        };
        now.duration_since(UNIX_EPOCH)
            .map_or(0, |since| since.as_secs())
    }
}
