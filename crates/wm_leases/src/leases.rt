//! Leases in the order of their runs, and beside that in the order of their ends.
ghost use Rattle.std.specs.Prelude.{◌≡◌, ◌∷◌, ◌++◌, ◌<◌, [], IfOk, map, OnErr, OnOk, true};
ghost use Rattle.std.specs.List.{AllByRecursion};
ghost use Rattle.wm_leases.specs.Leases.{changed_at, lease_of, least_end, made_told, over_at, renewed, runs_of, without, Ascend};

use crate::ends::{Ends, is_over_among, over_among};
use crate::terms::{Term, add_term, remove_term, renew_term, runs_in, tell_term};
use std::alloc::{AllocError, Global};
use std::collections::{BTreeMap, BTreeSet};
use std::marker::Model;
use wm_collections::listed;

/// The lease of a run that is out.
#[derive(Clone, Copy, Debug, PartialEq, Eq)]
pub struct Lease {
    /// The number of the run.
    pub run: u64,
    /// The moment from which on it is over, in milliseconds; none where that never comes.
    pub end: Option<u64>,
    /// Whether the run was told to stop.
    pub told: bool,
}

/// The leases of the runs that are out. A contract sees them as a list, in ascending number of the runs.
#[derive(Debug, Drop)]
pub struct Leases {
    terms: BTreeMap<u64, Term>,
    ends: Ends,
}

impl Model for Leases {
    ghost use Rattle.std.specs.Prelude.{List};
    ghost use Rattle.wm_leases.specs.declared.leases.Lease.{Lease};
    ghost use Rattle.wm_leases.specs.Ends.{has_end};
    ghost use Rattle.wm_leases.specs.Terms.{leases_in, IsKept};

    ghost Value = { List Lease };

    ghost view = { λ l. leases_in l.terms.entries };

    ghost invariant = { λ l. IsKept l.terms.entries (has_end l.ends) };
}

impl Leases {
    /// No lease, which takes no memory.
    pub fn new(alloc: Global) -> Leases
        ensures { result ≡ [] }
    {
        Leases {
            terms: BTreeMap::new(alloc),
            ends: BTreeSet::new(alloc),
        }
    }

    /// Whether no run is out.
    pub fn is_empty(&self) -> bool
        ensures { result ≡ true → self.now ≡ [] }
    {
        self.terms.is_empty()
    }

    /// The lease of a run, where it is out. It takes no memory.
    pub fn get(&self, run: u64) -> Option<Lease>
        ensures lease { result ≡ lease_of run self.now }
        ensures ascending { Ascend self.now }
    {
        match self.terms.get(&run) {
            Some(term) => Some(Lease {
                run,
                end: term.end,
                told: term.told,
            }),
            None => None,
        }
    }

    /// The numbers of the runs, ascending. Memory that is refused is the only error.
    pub fn runs(&self, alloc: Global) -> Result<Vec<u64>, AllocError>
        ensures { IfOk result (λ runs. runs.items ≡ runs_of self.now) }
    {
        runs_in(alloc, &self.terms)
    }

    /// The numbers of the runs whose lease is over at a moment, ascending. Memory that is refused is the
    /// only error.
    pub fn over_at(&self, alloc: Global, moment: u64) -> Result<Vec<u64>, AllocError>
        ensures { IfOk result (λ runs. runs.items ≡ runs_of (over_at moment self.now)) }
    {
        if !is_over_among(&self.ends, moment) {
            return Ok(Vec::new(alloc));
        }
        let runs = over_among(alloc, &self.ends, moment)?;
        listed(alloc, &runs)
    }

    /// The least moment at which one of them ends; none where none ends. It takes no memory.
    pub fn least_end(&self) -> Option<u64>
        ensures { result ≡ least_end self.now }
    {
        match self.ends.first() {
            Some(end) => Some(end.0),
            None => None,
        }
    }

    /// Adds the lease of a run whose number is above all others. Where memory is refused, the leases are as
    /// they were.
    pub fn add(&mut self, lease: Lease) -> Result<(), AllocError>
        requires above { AllByRecursion (λ other. other.run < lease.run) self.old }
        ensures ok { OnOk result (self.new ≡ self.old ++ lease ∷ []) }
        ensures err { OnErr result (self.new ≡ self.old) }
    {
        let term = Term {
            end: lease.end,
            told: lease.told,
        };
        add_term(&mut self.terms, &mut self.ends, lease.run, term)
    }

    /// Takes the lease of a run away, where it is out. It takes no memory.
    pub fn remove(&mut self, run: u64)
        ensures { self.new ≡ without run self.old }
    {
        remove_term(&mut self.terms, &mut self.ends, run);
    }

    /// Has the lease of a run, where it is out, begin anew, and end then. Where memory is refused, the leases
    /// are as they were.
    pub fn renew(&mut self, run: u64, end: Option<u64>) -> Result<(), AllocError>
        ensures ok { OnOk result (self.new ≡ changed_at (renewed end) run self.old) }
        ensures err { OnErr result (self.new ≡ self.old) }
    {
        renew_term(&mut self.terms, &mut self.ends, run, end)
    }

    /// Has all leases begin anew, and end then. Where memory is refused, some may have.
    pub fn renew_all(&mut self, alloc: Global, end: Option<u64>) -> Result<(), AllocError>
        ensures { OnOk result (self.new ≡ map (renewed end) self.old) }
    {
        let runs = runs_in(alloc, &self.terms)?;
        for run in runs {
            self.renew(run, end)?;
        }
        Ok(())
    }

    /// Marks a run, where it is out, as one that was told to stop. It takes no memory.
    pub fn tell(&mut self, run: u64)
        ensures { self.new ≡ changed_at made_told run self.old }
    {
        tell_term(&mut self.terms, run);
    }
}
