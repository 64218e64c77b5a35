//! How far the works of unique names come before others of their names, so that what comes last is
//! found without a look at the rest.
ghost use Rattle.std.specs.List.{list_any};
ghost use Rattle.std.specs.Prelude.{◌≡◌, ℕ, List, OnErr, OnOk};
ghost use Rattle.wm_steps.specs.Covers.{is_unnamed, mark_after, mark_of, takes_members, IsMarked};

use std::alloc::{AllocError, Global};
use std::collections::BTreeMap;
use wm_changes::{Replacement, StepChange};
use wm_machine::Record;

/// A mark for some unique names, which is a number: each work of the name with a smaller one is a
/// prerequisite of another of the name. A name without a mark has 0.
#[derive(Debug, Drop)]
pub struct Covers {
    marks: BTreeMap<String, u64>,
    alloc: Global,
}

impl Covers {
    /// No name has a mark. It takes no memory.
    pub fn new(alloc: Global) -> Covers
        ensures { (name : List ℕ) → mark_of result name ≡ 0 }
    {
        Covers {
            marks: BTreeMap::new(alloc),
            alloc,
        }
    }

    /// The mark of a name. It takes no memory.
    pub fn mark(&self, name: &str) -> u64
        ensures { result ≡ mark_of self.now name.now }
    {
        match self.marks.get(name) {
            Some(mark) => *mark,
            None => 0,
        }
    }

    /// Sets the mark of a name. Where memory is refused, each has the mark that it had.
    pub fn set(&mut self, name: &str, mark: u64) -> Result<(), AllocError>
        ensures ok { OnOk result (IsMarked name.now mark self.old self.new) }
        ensures err { OnErr result ((other : List ℕ) → mark_of self.new other ≡ mark_of self.old other) }
    {
        let key = String::from_str(self.alloc, name)?;
        self.marks.insert(key, mark)?;
        Ok(())
    }

    /// Follows the change of a step of these records: where it takes a work from a name, no name has a
    /// mark any more. It takes no memory.
    pub fn follow(&mut self, works: &[Record], change: &StepChange)
        ensures { (name : List ℕ) → mark_of self.new name
            ≡ mark_after (takes_members works.now change.now) (mark_of self.old name) }
    {
        if takes_members(works, change) {
            self.marks = BTreeMap::new(self.alloc);
        }
    }
}

/// Whether a change takes a work from its unique name: it removes records, or lets a name go.
fn takes_members(works: &[Record], change: &StepChange) -> bool
    ensures { result ≡ takes_members works.now change.now }
{
    !change.removed.is_empty() || any_unnamed(works, change.replaced.as_slice())
}

/// Whether one of these records hasn't the name of that whose place it takes.
fn any_unnamed(works: &[Record], replaced: &[Replacement]) -> bool
    ensures { result ≡ list_any (is_unnamed works.now) replaced.now }
{
    replaced
        .iter()
        .any(|replacement| is_unnamed(works, replacement))
}

/// Whether a record hasn't the name of that whose place it takes.
fn is_unnamed(works: &[Record], replaced: &Replacement) -> bool
    ensures { result ≡ is_unnamed works.now replaced.now }
{
    match works.get(replaced.index) {
        Some(old) => old.name.is_some() && replaced.work.name.is_none(),
        None => false,
    }
}
