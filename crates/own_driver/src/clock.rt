//! The system's clock as a clock that a driver asks.
ghost use Rattle.std.specs.Prelude.{◌≡◌};

use std::rt;
use wm_asks::Clock;

/// One reading of the system's clock: it tells the moment that was read, however often it is asked.
#[derive(Debug, Drop)]
pub struct Reading {
    /// Milliseconds since 1970.
    moment: u64,
    /// How many answers it has given.
    count: u64,
}

impl Reading {
    /// Reads the clock. Where the system doesn't tell, the moment is 0.
    pub fn of(clock: &impl rt::Clock) -> Reading
        ensures { result.count ≡ 0 }
    {
        let moment = match clock.since_1970() {
            Ok(since) => u64::try_from(since.as_millis()).unwrap_or(u64::MAX),
            Err(_) => 0,
        };
        Reading { moment, count: 0 }
    }
}

impl Clock for Reading {
    ghost use Rattle.std.specs.Prelude.{replicate};

    ghost answers = { λ reading. replicate reading.count reading.moment };

    ghost pace = { λ reading. reading.moment };

    fn now(&mut self) -> u64 {
        self.count += 1;
        self.moment
    }
}
