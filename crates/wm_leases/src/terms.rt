//! What is kept of each lease under the number of its run, with the ends beside it.
ghost use Rattle.std.specs.BTreeMap.{insert_entry};
ghost use Rattle.std.specs.Ordering.{nat_cmp};
ghost use Rattle.std.specs.Prelude.{◌≡◌, IfOk, None, OnErr, OnOk};
ghost use Rattle.wm_leases.specs.Ends.{has_end, Table};
ghost use Rattle.wm_leases.specs.Leases.{changed_at, made_told, renewed, runs_of, without};
ghost use Rattle.wm_leases.specs.Terms.{at, leases_in, IsKept};

use crate::ends::{Ends, forget_end, move_end};
use std::alloc::{AllocError, Global};
use std::collections::BTreeMap;

/// When a lease is over, and whether its run was told to stop.
#[derive(Clone, Copy, Debug)]
pub struct Term {
    pub end: Option<u64>,
    pub told: bool,
}

/// The numbers of the runs, ascending. Memory that is refused is the only error.
pub fn runs_in(alloc: Global, terms: &BTreeMap<u64, Term>) -> Result<Vec<u64>, AllocError>
    ensures { IfOk result (λ runs. runs.items ≡ runs_of (leases_in terms.now.entries)) }
{
    let mut runs = Vec::new(alloc);
    for run in terms.keys() {
        runs.push(*run)?;
    }
    Ok(runs)
}

/// Adds the lease of a run. Where memory is refused, the leases are as they were.
pub fn add_term(
    terms: &mut BTreeMap<u64, Term>,
    ends: &mut Ends,
    run: u64,
    term: Term,
) -> Result<(), AllocError>
    requires kept { IsKept terms.old.entries (has_end ends.old) }
    requires absent { at terms.old.entries run ≡ None }
    ensures kept { IsKept terms.new.entries (has_end ends.new) }
    ensures ok { OnOk result (terms.new.entries ≡ insert_entry nat_cmp terms.old.entries run term) }
    ensures err { OnErr result (terms.new.entries ≡ terms.old.entries) }
{
    move_end(ends, run, None, term.end)?;
    match terms.insert(run, term) {
        Ok(_none) => Ok(()),
        Err(_refused) => {
            forget_end(ends, run, term.end);
            Err(AllocError)
        }
    }
}

/// Takes the lease of a run away, where it is there. It takes no memory.
pub fn remove_term(terms: &mut BTreeMap<u64, Term>, ends: &mut Ends, run: u64)
    requires kept { IsKept terms.old.entries (has_end ends.old) }
    ensures kept { IsKept terms.new.entries (has_end ends.new) }
    ensures without { leases_in terms.new.entries ≡ without run (leases_in terms.old.entries) }
{
    if let Some(term) = terms.remove(&run) {
        forget_end(ends, run, term.end);
    }
}

/// Has the lease of a run, where it is there, end then. Where memory is refused, the leases are as they
/// were.
pub fn renew_term(
    terms: &mut BTreeMap<u64, Term>,
    ends: &mut Ends,
    run: u64,
    end: Option<u64>,
) -> Result<(), AllocError>
    requires kept { IsKept terms.old.entries (has_end ends.old) }
    ensures kept { IsKept terms.new.entries (has_end ends.new) }
    ensures ok { OnOk result (leases_in terms.new.entries ≡ changed_at (renewed end) run (leases_in terms.old.entries)) }
    ensures err { OnErr result (terms.new.entries ≡ terms.old.entries) }
{
    if let Some(term) = terms.get_mut(&run) {
        move_end(ends, run, term.end, end)?;
        term.end = end;
    }
    Ok(())
}

/// Marks a run, where its lease is there, as one that was told to stop. It takes no memory.
pub fn tell_term(terms: &mut BTreeMap<u64, Term>, run: u64)
    ensures kept { (ends : Table) → IsKept terms.old.entries ends → IsKept terms.new.entries ends }
    ensures told { leases_in terms.new.entries ≡ changed_at made_told run (leases_in terms.old.entries) }
{
    if let Some(term) = terms.get_mut(&run) {
        term.told = true;
    }
}
