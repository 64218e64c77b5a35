//! The signals of the runs that are out.
ghost use Rattle.std.specs.Prelude.{◌≡◌, false, IfOk};

use std::alloc::{AllocError, Global};
use wm_machine::Run;
use wm_worker::Signal;

/// The signal of the run of this number, of which the run's driver has a share.
#[derive(Drop)]
struct Watched {
    run: u64,
    signal: Signal,
}

/// The signals of the runs that are out. No promise rests on them: a worker whose signal is raised may
/// end its turn early, and what it tells comes too late all the same.
#[derive(Drop)]
pub struct Signals {
    watched: Vec<Watched>,
}

impl Signals {
    /// None. It takes no memory.
    pub fn new(alloc: Global) -> Signals {
        Signals {
            watched: Vec::new(alloc),
        }
    }

    /// Makes the signal of the run of this number, and keeps a share of it.
    pub fn add(&mut self, alloc: Global, run: u64) -> Result<Signal, AllocError>
        ensures { IfOk result (λ signal. signal ≡ record { run = run; never = false }) }
    {
        let signal = Signal::new(alloc, run)?;
        let share = signal.share()?;
        self.watched.push(Watched { run, signal: share })?;
        Ok(signal)
    }

    /// Forgets the signal of the run of this number. It takes no memory.
    pub fn remove(&mut self, run: u64) {
        self.watched.retain(|watched| watched.run != run);
    }

    /// Raises the signals of those of these runs that are stopped. It takes no memory.
    pub fn raise_stopped(&self, runs: &[Run]) {
        for run in runs {
            if !run.current {
                self.raise(run.run);
            }
        }
    }

    /// Raises the signal of the run of this number, where there is one. It takes no memory.
    fn raise(&self, run: u64) {
        if let Some(watched) = self.watched.iter().find(|watched| watched.run == run) {
            watched.signal.raise();
        }
    }
}
