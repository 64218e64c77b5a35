//! The records of the rows so far, and whether one more is sound after them.
ghost use Rattle.std.specs.BTreeSet.{contains_text};
ghost use Rattle.std.specs.List.{list_all};
ghost use Rattle.std.specs.Option.{option_copied};
ghost use Rattle.std.specs.Prelude.{◌≡◌, ◌&&◌, ◌||◌, ◌++◌, ◌∷◌, [], nat_lt, is_some, IfOk, List, OnOk, ℕ, true};
ghost use Rattle.wm_collections.specs.Lists.{AllLater};
ghost use Rattle.wm_machine.specs.Group.{is_name};
ghost use Rattle.wm_machine.specs.Input.{work_numbered};
ghost use Rattle.wm_machine.specs.Valid.{IsBefore};
ghost use Rattle.wm_rows.specs.Sound.{are_different, is_above, is_name_free, is_prior_sound, is_sound_after, serves};

use std::alloc::{AllocError, Global};
use std::collections::BTreeSet;
use std::marker::Model;
use uuid::Uuid;
use wm_collections::{Items, Text, is_among};
use wm_machine::{How, Phase, Record, work_numbered};

/// The most records of a store.
const MOST_WORKS: usize = 100_000;

/// The records of the rows so far, with their ids and names. A contract sees the records alone.
#[derive(Drop)]
pub struct Before {
    works: Vec<Record>,
    ids: BTreeSet<Uuid>,
    names: BTreeSet<String>,
    /// The names of those that are periodic.
    periodic: BTreeSet<String>,
}

impl Model for Before {
    ghost use Rattle.std.specs.Prelude.{List};
    ghost use Rattle.wm_machine.specs.declared.record.Record.{Record};
    ghost use Rattle.wm_rows.specs.Kept.{IsKept};

    ghost Value = { List Record };

    ghost view = { λ b. b.works.items };

    ghost invariant = { λ b. IsKept b.works.items b.ids b.names b.periodic };
}

impl Before {
    /// No record. It takes no memory.
    pub fn new(alloc: Global) -> Before
        ensures { result ≡ [] }
    {
        Before {
            works: Vec::new(alloc),
            ids: BTreeSet::new(alloc),
            names: BTreeSet::new(alloc),
            periodic: BTreeSet::new(alloc),
        }
    }

    /// The records, taken out.
    pub fn into_works(self) -> Items<Record>
        ensures { result ≡ self }
    {
        Items::from_vec(self.works)
    }

    /// These and one more, which is sound after them.
    pub fn with(mut self, alloc: Global, work: Record) -> Result<Before, AllocError>
        requires { is_sound_after self work ≡ true }
        ensures { IfOk result (λ more. more ≡ self ++ work ∷ []) }
    {
        self.ids.insert(work.request.id())?;
        let is_periodic = work.request.period().is_some();
        note(alloc, &mut self.names, true, &work.name)?;
        note(alloc, &mut self.periodic, is_periodic, &work.name)?;
        self.works.push(work)?;
        Ok(self)
    }

    /// Whether a record is sound after these.
    #[tactic(auto, unfolding(crate::specs::Sound::is_sound_after))]
    pub(crate) fn is_sound(&self, work: &Record) -> bool
        ensures { result ≡ is_sound_after self.now work.now }
    {
        self.works.len() < MOST_WORKS
            && is_above(self.works.as_slice(), work)
            && !self.ids.contains(&work.request.id())
            && self.is_name_free(work)
            && is_prior_sound(self.works.as_slice(), work)
    }

    /// Whether the name of a record is free.
    fn is_name_free(&self, work: &Record) -> bool
        ensures { result ≡ is_name_free self.now (is_some work.now.request.period) work.now.name }
    {
        let is_periodic = work.request.period().is_some();
        match &work.name {
            None => true,
            Some(name) => {
                if is_periodic {
                    !self.names.contains(name.as_str())
                } else {
                    !self.periodic.contains(name.as_str())
                }
            }
        }
    }
}

/// Notes a name, where there is one and it is to be noted.
fn note(
    alloc: Global,
    names: &mut BTreeSet<String>,
    is_noted: bool,
    name: &Option<Text>,
) -> Result<(), AllocError>
    ensures { OnOk result ((other : List ℕ) → contains_text names.new other
        ≡ (contains_text names.old other || (is_noted && is_name other name.now))) }
{
    match name {
        Some(name) => {
            if is_noted {
                names.insert(String::from_str(alloc, name.as_str())?)?;
            }
            Ok(())
        }
        None => Ok(()),
    }
}

/// Whether the number of a record is above theirs.
fn is_above(before: &[Record], work: &Record) -> bool
    requires { AllLater IsBefore before.now }
    ensures { result ≡ is_above before.now work.now }
{
    match before.last() {
        Some(last) => last.seq < work.seq,
        None => true,
    }
}

/// Whether a record is sound by its prerequisites.
fn is_prior_sound(before: &[Record], work: &Record) -> bool
    requires { AllLater IsBefore before.now }
    ensures { result ≡ is_prior_sound before.now work.now }
{
    let prior = work.prior.as_slice();
    are_different(prior) && are_below(prior, work.seq) && all_serve(before, work.phase, prior)
}

/// Whether these numbers differ.
fn are_different(numbers: &[u64]) -> bool
    ensures { result ≡ are_different numbers.now }
{
    for index in 0..numbers.len() {
        if is_among(&numbers[index + 1..], numbers[index]) {
            return false;
        }
    }
    true
}

/// Whether these numbers are smaller than another.
fn are_below(numbers: &[u64], number: u64) -> bool
    ensures { result ≡ list_all (λ one. nat_lt one number) numbers.now }
{
    numbers.iter().all(|one| *one < number)
}

/// Whether the record of each of these numbers is as work in this phase needs it.
fn all_serve(before: &[Record], phase: Phase, numbers: &[u64]) -> bool
    requires { AllLater IsBefore before.now }
    ensures { result ≡ list_all (λ number. serves phase (work_numbered number before.now)) numbers.now }
{
    for number in numbers {
        if !serves(phase, work_numbered(before, *number)) {
            return false;
        }
    }
    true
}

/// Whether a prerequisite, where it is still there, is as work in this phase needs it.
fn serves(phase: Phase, prior: Option<&Record>) -> bool
    ensures { result ≡ serves phase (option_copied prior.entry) }
{
    match (phase, prior) {
        (Phase::Waiting, Some(prior)) => {
            prior.request.period().is_none()
                && (prior.phase.is_open() || prior.phase.is_succeeded())
        }
        (Phase::Running, Some(prior)) => {
            prior.request.period().is_none() && prior.phase.is_succeeded()
        }
        (Phase::Waiting | Phase::Running, None) => false,
        (Phase::Done(How::Succeeded), Some(prior)) => prior.phase.is_succeeded(),
        (Phase::Done(_), _) => true,
    }
}
