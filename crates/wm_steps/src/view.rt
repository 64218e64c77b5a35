//! The view: a state with the graph and the index of its records, and those that are ready.
ghost use Rattle.std.specs.List.{list_any};
ghost use Rattle.std.specs.Prelude.{◌≡◌, ◌<◌, ◌∷◌, [], filter, length, slice_get, true, None, Some, IfOk, IfSome, MatchOption};
ghost use Rattle.std.specs.Option.{option_copied, option_map};
ghost use Rattle.wm_collections.specs.Lists.{is_among};
ghost use Rattle.wm_graph.specs.Descendants.{dependents};
ghost use Rattle.wm_graph.specs.Marks.{freed_by};
ghost use Rattle.wm_graph.specs.Nodes.{HasNode};
ghost use Rattle.wm_machine.specs.Cancelled.{work_with_id};
ghost use Rattle.wm_machine.specs.Group.{members_of, numbers_in};
ghost use Rattle.wm_machine.specs.Input.{work_numbered};
ghost use Rattle.wm_machine.specs.Queried.{has_tag};
ghost use Rattle.wm_machine.specs.Runs.{run_numbered};
ghost use Rattle.wm_machine.specs.Shown.{shown_of};
ghost use Rattle.wm_machine.specs.declared.record.Record.{Record};
ghost use Rattle.wm_machine.specs.Valid.{Valid};
ghost use Rattle.wm_steps.specs.Covers.{AreLast, IsMark};
ghost use Rattle.wm_changes.specs.Nodes.{nodes_of, reached_from, IsUnmarked};
ghost use Rattle.wm_graph.specs.Numbers.{Ascend, RiseFrom};
ghost use Rattle.wm_steps.specs.Readied.{IsFirstOf};
ghost use Rattle.wm_changes.specs.Readiness.{is_ready_in};
ghost use Rattle.wm_steps.specs.Wakes.{IsWakeOf};

mod step;

use crate::covers::Covers;
use crate::entries::index_of;
use crate::startable::Startable;
use std::alloc::{AllocError, Global};
use std::marker::Model;
use uuid::Uuid;
use wm_collections::{Items, Text, at, both};
use wm_graph::{Graph, Numbers, is_listed, numbers_from};
use wm_index::Index;
use wm_machine::{
    Command, Policy, Record, Run, Shown, State, UniqueName, index_numbered, work_numbered,
};

/// The state with what is kept beside it, by which an event finds what it changes and what starts
/// next: the graph and the index of its records, and those that are ready. Its type keeps that the
/// state is valid, and that the rest agrees with it. A contract sees the state alone.
#[derive(Drop)]
pub struct View {
    pub state: State,
    /// The records as the nodes of a graph, which is asked what a work reaches and frees.
    graph: Graph,
    /// The records by their ids, their unique names and their tags.
    index: Index,
    /// The records that are ready, by what they wait for.
    startable: Startable,
    /// How far the members of unique names come before others.
    covers: Covers,
}

impl Model for View {
    ghost use Rattle.wm_machine.specs.declared.state.State.{State};
    ghost use Rattle.wm_steps.specs.Views.{IsViewed};

    ghost Value = { State };

    ghost view = { λ v. v.state };

    ghost invariant = { λ v. IsViewed v.state v.graph v.index v.startable v.covers };
}

impl View {
    /// The view of a state. The graph has the nodes of its records. Memory that is refused is the only
    /// error.
    pub fn new(alloc: Global, state: State, graph: Graph) -> Result<View, AllocError>
        requires valid { Valid state }
        requires graph { graph ≡ nodes_of state.works }
        ensures { IfOk result (λ view. view ≡ state) }
    {
        let index = index_of(alloc, state.works.as_slice());
        let startable = Startable::new(alloc, &state, &graph);
        let ((state, graph), index) = both((state, graph), index)?;
        let ((state, graph, index), startable) = both((state, graph, index), startable)?;
        Ok(View {
            state,
            graph,
            index,
            startable,
            covers: Covers::new(alloc),
        })
    }

    /// The state, without what is kept beside it. It takes no memory.
    pub fn into_state(self) -> State
        ensures { result ≡ self }
    {
        let View {
            state,
            graph: _,
            index: _,
            startable: _,
            covers: _,
        } = self;
        state
    }

    /// The number of the work that starts first; none where nothing is startable. It takes no memory.
    pub fn first(&self) -> Option<u64>
        ensures { IsFirstOf self.now result }
    {
        let startable = &self.startable;
        startable
            .ready
            .first(self.state.now, startable.tracker.met(), &startable.busy)
    }

    /// The moment at which the state wakes: the least one above now at which a work is due whose
    /// prerequisites have succeeded, whose constraints are met, and which needn't wait for an instance
    /// of its class. None where no work waits for its moment alone. It takes no memory.
    pub fn wake(&self) -> Option<u64>
        ensures { IsWakeOf self.now result }
    {
        let startable = &self.startable;
        startable
            .ready
            .wake(self.state.now, startable.tracker.met(), &startable.busy)
    }

    /// The work of a number; none where no work has it. It takes no memory.
    pub fn work(&self, number: u64) -> Option<&Record>
        ensures found { option_copied result ≡ work_numbered number self.now.works }
        ensures there { IfSome result (λ work. work_numbered work.now.seq self.now.works ≡ Some work.now) }
    {
        work_numbered(self.state.works.as_slice(), number)
    }

    /// The place of the work of a number among the records; none where no work has it. It takes no
    /// memory.
    pub fn place_of(&self, number: u64) -> Option<usize>
        ensures { MatchOption result (work_numbered number self.now.works ≡ None) (λ place.
            (place < length self.now.works) × (work_numbered number self.now.works ≡ slice_get self.now.works place)) }
    {
        index_numbered(self.state.works.as_slice(), number)
    }

    /// The work at a place among the records. It takes no memory.
    pub fn work_at(&self, place: usize) -> &Record
        requires { place < length self.now.works }
        ensures { slice_get self.now.works place ≡ Some result.now }
    {
        at(self.state.works.as_slice(), place)
    }

    /// The run of a number; none where no run has it. It takes no memory.
    pub fn run(&self, number: u64) -> Option<&Run>
        ensures { option_copied result ≡ run_numbered number self.now.runs }
    {
        run_numbered(self.state.runs.as_slice(), number)
    }

    /// Whether a work waits, and each of its prerequisites has succeeded: none of them is unmet. It
    /// takes no memory.
    pub fn is_ready(&self, work: &Record) -> bool
        requires there { work_numbered work.now.seq self.now.works ≡ Some work.now }
        ensures { result ≡ is_ready_in self.now.works work.now }
    {
        work.phase.is_waiting() && self.graph.unmet(work.seq) == 0
    }

    /// The state shown of a work. It takes no memory.
    pub fn shown_of(&self, work: &Record) -> Shown
        requires there { work_numbered work.now.seq self.now.works ≡ Some work.now }
        ensures { result ≡ shown_of self.now.works work.now }
    {
        work.phase.shown(self.is_ready(work))
    }

    /// The number of the work of an id; none where no work has it. It takes no memory.
    pub fn number_of(&self, id: Uuid) -> Option<u64>
        ensures { result ≡ option_map (λ (work : Record). work.seq) (work_with_id self.now.works id) }
    {
        self.index.by_id(&id)
    }

    /// The work of an id; none where no work has it. It takes no memory.
    pub fn with_id(&self, id: Uuid) -> Option<&Record>
        ensures found { option_copied result ≡ work_with_id self.now.works id }
        ensures there { IfSome result (λ work. work_numbered work.now.seq self.now.works ≡ Some work.now) }
    {
        let number = self.index.by_id(&id)?;
        self.work(number)
    }

    /// The numbers of the works of a unique name, ascending. It takes no memory.
    pub fn members(&self, name: &Text) -> &[u64]
        ensures { result.now ≡ numbers_in (members_of self.now.works name.now) }
    {
        self.index.by_name(name.as_str())
    }

    /// The numbers of the works with a tag, ascending. It takes no memory.
    pub fn tagged(&self, tag: &Text) -> &[u64]
        ensures { result.now ≡ numbers_in (filter (λ work. has_tag work.request.tags tag.now) self.now.works) }
    {
        self.index.by_tag(tag.as_str())
    }

    /// The numbers of the works that have a work as a prerequisite, ascending. Memory that is refused
    /// is the only error.
    pub fn dependents(&self, number: u64) -> Result<Vec<u64>, AllocError>
        ensures { IfOk result (λ found. found.items ≡ dependents (nodes_of self.now.works) number) }
    {
        self.graph.dependents(number)
    }

    /// The numbers of a work, which is there, and of its descendants: they rise from its own. Memory
    /// that is refused is the only error.
    pub fn descendants(&self, number: u64) -> Result<Numbers, AllocError>
        requires { HasNode (nodes_of self.now.works) number }
        ensures found { IfOk result (λ found. found ≡ reached_from (number ∷ []) (nodes_of self.now.works)) }
        ensures rise { IfOk result (RiseFrom number) }
    {
        let found = self.graph.descendants(number)?;
        Ok(Numbers::of(Items::from_vec(found)))
    }

    /// The numbers of some works and of the descendants of any of them, ascending. Memory that is
    /// refused is the only error.
    pub fn descendants_of(&self, numbers: &[u64]) -> Result<Numbers, AllocError>
        ensures { IfOk result (λ found. found ≡ reached_from numbers.now (nodes_of self.now.works)) }
    {
        let found = self.graph.descendants_of(numbers)?;
        Ok(Numbers::of(Items::from_vec(found)))
    }

    /// The numbers of the works that have a work, which hasn't succeeded, as their last missing
    /// prerequisite: they rise from its own. Memory that is refused is the only error.
    pub fn freed_by(&self, number: u64) -> Result<Numbers, AllocError>
        requires { IsUnmarked (nodes_of self.now.works) number }
        ensures freed { IfOk result (λ freed. freed ≡ freed_by (nodes_of self.now.works) number) }
        ensures rise { IfOk result (RiseFrom number) }
    {
        let freed = self.graph.frees(number)?;
        Ok(Numbers::of(Items::from_vec(freed)))
    }

    /// The numbers of the last works of a unique name, ascending, by which its leaves are found: each
    /// work of the name before them is known to be a prerequisite of another. It takes no memory.
    pub fn last_members(&self, name: &Text) -> &[u64]
        ensures { AreLast (members_of self.now.works name.now) result.now }
    {
        numbers_from(self.members(name), self.covers.mark(name.as_str()))
    }

    /// Looks ahead of a command: where it appends works to those of a unique name, the last members of
    /// that are as few as memory allows. The state stays.
    pub fn look_ahead(&mut self, command: &Command)
        ensures { self.new ≡ self.old }
    {
        if let Command::Enqueue {
            named: Some(unique),
            ..
        } = command
        {
            self.look_ahead_under(unique);
        }
    }

    /// The same of an enqueue under a unique name.
    fn look_ahead_under(&mut self, unique: &UniqueName)
        ensures { self.new ≡ self.old }
    {
        if let Policy::Append | Policy::AppendOrReplace = unique.policy {
            self.cover(&unique.name);
        }
    }

    /// Takes those that are a prerequisite of a member from the last members of a name, up to the first
    /// that isn't. Where memory is refused, fewer are taken. The state stays.
    pub fn cover(&mut self, name: &Text)
        ensures { self.new ≡ self.old }
    {
        if let Some(number) = self.first_uncovered(name) {
            let _refused = self.covers.set(name.as_str(), number);
        }
    }

    /// The first of the last members of a name that isn't known to be a prerequisite of a member.
    fn first_uncovered(&self, name: &Text) -> Option<u64>
        ensures { IfSome result (IsMark self.entry.now name.now) }
    {
        // what the type of a view keeps is known where a field of it is read
        let _reached = &self.state;
        let last = self.last_members(name);
        for number in last {
            if !self.is_before_any(*number, last) {
                return Some(*number);
            }
        }
        None
    }

    /// Whether a work is known to be a prerequisite of one of these, which ascend. Where memory is
    /// refused, it isn't known.
    fn is_before_any(&self, number: u64, members: &[u64]) -> bool
        requires { Ascend members.now }
        ensures { result ≡ true → list_any (is_among members.now) (dependents (nodes_of self.now.works) number) ≡ true }
    {
        match self.dependents(number) {
            Ok(dependents) => any_listed(members, &dependents),
            Err(_) => false,
        }
    }
}

/// The run of a number among these.
fn run_numbered(runs: &[Run], number: u64) -> Option<&Run>
    ensures { option_copied result ≡ run_numbered number runs.now }
{
    runs.iter().find(|run| run.run == number)
}

/// Whether one of these numbers is among others, which ascend.
fn any_listed(numbers: &[u64], these: &[u64]) -> bool
    requires { Ascend numbers.now }
    ensures { result ≡ list_any (is_among numbers.now) these.now }
{
    these.iter().any(|number| is_listed(numbers, *number))
}
