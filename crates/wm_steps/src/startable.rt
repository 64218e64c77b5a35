//! The works that are ready, by what they wait for, and how that follows a step.
ghost use Rattle.std.specs.List.{AllByRecursion};
ghost use Rattle.std.specs.Prelude.{◌≡◌, ◌≤◌, false, length, vec_capacity, IfOk, OnOk};
ghost use Rattle.wm_changes.specs.Nodes.{nodes_of};
ghost use Rattle.wm_collections.specs.Lists.{AllLater};
ghost use Rattle.wm_graph.specs.Nodes.{HasNode};
ghost use Rattle.wm_machine.specs.Valid.{IsBefore, IsRecord, Valid};
ghost use Rattle.wm_steps.specs.Readied.{comes, is_left_by, is_left_undone, AreBusy, AreLeft, AreNamed, ArePut, IsPutSome};
ghost use Rattle.wm_steps.specs.Startables.{AreStartable, HaveRooms};

use crate::readying::{prepare_ready, ready_of, settle_ready, undo_ready};
use crate::rooms::{classes_of, list_busy, relist_busy};
use std::alloc::{AllocError, Global};
use wm_changes::StepChange;
use wm_collections::{Items, Text};
use wm_conditions::Tracker;
use wm_graph::Graph;
use wm_machine::{Record, State};
use wm_ready::Ready;

/// The works that are ready, each with what it waits for still: its moment, its constraints and an
/// instance of its class.
#[derive(Drop)]
pub struct Startable {
    /// The entries of the works that are ready.
    pub ready: Ready,
    /// The classes that have instances; the place of one is its number.
    pub classes: Items<Text>,
    /// The numbers of the classes whose works have to wait for an instance.
    pub busy: Vec<u32>,
    /// The conditions, and the constraints that they meet.
    pub tracker: Tracker,
}

impl Startable {
    /// The works of a state that are ready. The graph has the nodes of its records. Memory that is
    /// refused is the only error.
    pub fn new(alloc: Global, state: &State, graph: &Graph) -> Result<Startable, AllocError>
        requires valid { Valid state.now }
        requires nodes { graph.now ≡ nodes_of state.now.works }
        ensures { IfOk result (AreStartable state.entry.now) }
    {
        let instances = state.instances.as_slice();
        let classes = classes_of(alloc, instances)?;
        let ready = ready_of(alloc, classes.as_slice(), graph, state.works.as_slice())?;
        let mut busy = Vec::with_capacity(alloc, classes.len())?;
        list_busy(&mut busy, classes.as_slice(), instances);
        Ok(Startable {
            ready,
            classes,
            busy,
            tracker: Tracker::new(state.conditions),
        })
    }

    /// Puts the entries in of the works that come by a change and wait. Where memory is refused, some
    /// are there.
    pub fn prepare(&mut self, change: &StepChange) -> Result<(), AllocError>
        requires few { length self.old.classes ≤ 10000 }
        requires told { AllByRecursion (λ told. IsRecord told.work) change.now.told }
        requires replaced { AllByRecursion (λ replaced. IsRecord replaced.work) change.now.replaced }
        requires placed { AllByRecursion IsRecord change.now.placed }
        ensures ok { OnOk result (ArePut (comes self.old.classes change.now) self.old.ready self.new.ready) }
        ensures some { IsPutSome (comes self.old.classes change.now) self.old.ready self.new.ready }
        ensures rooms { self.new ≡ record self.old { ready = self.new.ready } }
    {
        prepare_ready(&mut self.ready, self.classes.as_slice(), change)
    }

    /// Drops the entries that a change leaves nobody to want: of these records, which were there before
    /// it, and of those that came by it. The graph has their nodes after it. It takes no memory.
    pub fn settle(&mut self, graph: &Graph, works: &[Record], change: &StepChange)
        requires few { length self.old.classes ≤ 10000 }
        requires in_order { AllLater IsBefore works.now }
        requires records { AllByRecursion IsRecord works.now }
        requires told { AllByRecursion (λ told. IsRecord told.work) change.now.told }
        requires replaced { AllByRecursion (λ replaced. IsRecord replaced.work) change.now.replaced }
        requires placed { AllByRecursion IsRecord change.now.placed }
        requires told_nodes { AllByRecursion (λ told. HasNode graph.now told.work.seq) change.now.told }
        requires replaced_nodes { AllByRecursion (λ replaced. HasNode graph.now replaced.work.seq) change.now.replaced }
        requires placed_nodes { AllByRecursion (λ work. HasNode graph.now work.seq) change.now.placed }
        ensures left { AreLeft (is_left_by self.old.classes graph.now works.now change.now) self.old.ready self.new.ready }
        ensures rooms { self.new ≡ record self.old { ready = self.new.ready } }
    {
        settle_ready(
            &mut self.ready,
            self.classes.as_slice(),
            graph,
            works,
            change,
        );
    }

    /// Drops the entries that have come of a change, or of some of it: those that none of these records
    /// wants, which are there without it. The graph has the nodes of these records. It takes no memory.
    pub fn undo(&mut self, graph: &Graph, works: &[Record], change: &StepChange)
        requires few { length self.old.classes ≤ 10000 }
        requires records { AllByRecursion IsRecord works.now }
        requires nodes { AllByRecursion (λ work. HasNode graph.now work.seq) works.now }
        requires told { AllByRecursion (λ told. IsRecord told.work) change.now.told }
        requires replaced { AllByRecursion (λ replaced. IsRecord replaced.work) change.now.replaced }
        requires placed { AllByRecursion IsRecord change.now.placed }
        ensures left { AreLeft (is_left_undone self.old.classes graph.now works.now change.now) self.old.ready self.new.ready }
        ensures rooms { self.new ≡ record self.old { ready = self.new.ready } }
    {
        undo_ready(
            &mut self.ready,
            self.classes.as_slice(),
            graph,
            works,
            change,
        );
    }

    /// Takes over the conditions of a state, and its instances where some of them were touched, where
    /// none but the ready works are right for it. It takes no memory.
    pub fn follow(&mut self, state: &State, touched: bool)
        requires few { length self.old.classes ≤ 10000 }
        requires room { length self.old.classes ≤ vec_capacity self.old.busy }
        requires named { AreNamed self.old.classes state.now.instances }
        requires kept { touched ≡ false → AreBusy self.old.classes state.now.instances self.old.busy.items }
        ensures rooms { HaveRooms state.entry.now self.new }
        ensures ready { self.new.ready ≡ self.old.ready }
        ensures classes { self.new.classes ≡ self.old.classes }
    {
        relist_busy(
            &mut self.busy,
            self.classes.as_slice(),
            state.instances.as_slice(),
            touched,
        );
        self.tracker.update(state.conditions);
    }
}
