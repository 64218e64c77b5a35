//! The signal by which a worker learns that its run was stopped.
ghost use Rattle.std.specs.Prelude.{◌≡◌, true, false, IfOk, IfSome, IsTrue, IsNone};

use std::alloc::{AllocError, Global};
use std::marker::Model;
use std::sync::Arc;
use std::sync::atomic::{AtomicBool, Ordering};

/// That a signal was raised. Only [`Signal::poll`] makes one. A contract sees it as the number of
/// the signal's run.
#[derive(Debug, Drop)]
pub struct Raised {
    run: u64,
}

impl Model for Raised {
    ghost use Rattle.std.specs.Prelude.{ℕ};

    ghost Value = { ℕ };

    ghost view = { λ raised. raised.run };
}

impl Raised {
    /// The number of the run whose signal was raised.
    pub fn run(&self) -> u64
        ensures { result ≡ self.now }
    {
        self.run
    }
}

/// By which a worker learns that its run was stopped. It is shared between whoever stops the run
/// and the worker. A contract sees the number of its run and whether it can never be raised.
#[derive(Drop)]
pub struct Signal {
    run: u64,
    /// None where it can never be raised.
    flag: Option<Arc<AtomicBool>>,
}

impl Model for Signal {
    ghost use Rattle.std.specs.Prelude.{is_none};
    ghost use Rattle.wm_worker.specs.Signal.{SignalState};

    ghost Value = { SignalState };

    ghost view = { λ signal. record { run = signal.run; never = is_none signal.flag } };
}

impl Signal {
    /// A signal of this run that isn't raised.
    pub fn new(alloc: Global, run: u64) -> Result<Signal, AllocError>
        ensures { IfOk result (λ signal. signal ≡ record { run = run; never = false }) }
    {
        let flag = Arc::new(alloc, AtomicBool::new(false))?;
        Ok(Signal {
            run,
            flag: Some(flag),
        })
    }

    /// A signal of this run that can never be raised. It holds nothing shared.
    pub fn never(run: u64) -> Signal
        ensures { result ≡ record { run = run; never = true } }
    {
        Signal { run, flag: None }
    }

    /// Another hold of the same signal: where one is raised, both are.
    pub fn share(&self) -> Result<Signal, AllocError>
        ensures { IfOk result (λ share. share ≡ self.now) }
    {
        let flag = match &self.flag {
            Some(flag) => Some(Arc::try_clone(flag)?),
            None => None,
        };
        Ok(Signal {
            run: self.run,
            flag,
        })
    }

    /// Raises the signal, in all its shares. One that can never be raised stays as it is.
    pub fn raise(&self) {
        if let Some(flag) = &self.flag {
            flag.store(true, Ordering::SeqCst);
        }
    }

    /// That the signal was raised, where it was.
    pub fn poll(&self) -> Option<Raised>
        ensures run { IfSome result (λ raised. raised ≡ self.now.run) }
        ensures never { IsTrue self.now.never → IsNone result }
    {
        match &self.flag {
            Some(flag) if flag.load(Ordering::SeqCst) => Some(Raised { run: self.run }),
            _ => None,
        }
    }
}
