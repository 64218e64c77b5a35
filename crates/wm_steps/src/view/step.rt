//! How a view makes the change of a step: first all that takes memory, then the commit of the rows, and
//! the state last.
ghost use Rattle.std.specs.Prelude.{◌≡◌, ◌≢◌, ◌^◌, ◌<◌, [], Err, IfOk, OnErr, OnOk};
ghost use Rattle.wm_changes.specs.StepChanges.{changed_state, next_run_by, row_changes, IsLettingGo, IsStepOf};
ghost use Rattle.wm_keeper.specs.declared.keeper.KeepFault.TheVariants as KeepFault;
ghost use Rattle.wm_steps.specs.Stored.{IsStored};

use crate::entries::settle_entries;
use crate::follow::change_nodes;
use crate::storing::store;
use crate::view::View;
use std::alloc::Global;
use wm_changes::StepChange;
use wm_changes::lists::Lists;
use wm_keeper::{Change, KeepFault, Keeper};
use wm_machine::Event;

impl View {
    /// Makes the change of a step, of which these are the changes of rows, and answers its event. The
    /// rows are committed at once, and none where none changes. Memory that is refused and the
    /// keeper's fault are the only errors, and after one the state is as it was. Once the rows are
    /// committed it takes no memory.
    pub fn step<K: Keeper>(
        &mut self,
        alloc: Global,
        change: StepChange,
        changes: &[Change],
        keeper: &mut K,
    ) -> Result<Event, KeepFault>
        requires step { IsStepOf self.old change }
        requires rows { changes.now ≡ row_changes change }
        requires few { next_run_by change.run self.old.next_run < 2 ^ 64 }
        ensures state { OnOk result (self.new ≡ changed_state change self.old) }
        ensures event { IfOk result (λ made. made ≡ change.event) }
        ensures state_err { OnErr result (self.new ≡ self.old) }
        ensures stored { IsStored changes.now result (K.store keeper.old) (K.store keeper.new) }
        ensures untouched_keeper { row_changes change ≡ [] → keeper.new ≡ keeper.old }
        ensures no_keeper_fault { row_changes change ≡ [] → result ≢ Err KeepFault.Failed }
    {
        let count = self.graph.len();
        let mut lists = Lists::take(alloc, &mut self.state);
        match store(
            &mut lists,
            &mut self.graph,
            &mut self.index,
            &mut self.startable,
            &change,
            changes,
            keeper,
        ) {
            Ok(()) => {
                change_nodes(&mut self.graph, &change);
                settle_entries(&mut self.index, lists.works.as_slice(), &change);
                self.startable
                    .settle(&self.graph, lists.works.as_slice(), &change);
                self.covers.follow(lists.works.as_slice(), &change);
                let touched = change.touches_instances();
                let event = lists.change(alloc, &mut self.state, change);
                lists.put_back(&mut self.state);
                self.startable.follow(&self.state, touched);
                Ok(event)
            }
            Err(fault) => {
                self.graph.truncate(count);
                self.startable
                    .undo(&self.graph, lists.works.as_slice(), &change);
                drop(change);
                lists.put_back(&mut self.state);
                Err(fault)
            }
        }
    }

    /// Makes the change by which a run is away that was stopped, and answers its event. No row changes
    /// by that, and it takes no memory.
    pub fn let_go(&mut self, alloc: Global, change: StepChange) -> Event
        requires step { IsStepOf self.old change }
        requires away { IsLettingGo change }
        ensures state { self.new ≡ changed_state change self.old }
        ensures event { result ≡ change.event }
    {
        let mut lists = Lists::take(alloc, &mut self.state);
        let event = lists.change(alloc, &mut self.state, change);
        lists.put_back(&mut self.state);
        self.startable.follow(&self.state, true);
        event
    }
}
