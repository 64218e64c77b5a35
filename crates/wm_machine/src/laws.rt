//! Laws of the machine, over its definitions alone. Each is the contract of a function that does
//! nothing.
ghost use Rattle.std.specs.Prelude.{◌≡◌, ◌≤◌, ◌+◌, ℕ, true, List, [], ◌∷◌, ◌++◌, length, Some, None};
ghost use Rattle.std.specs.List.{AllByRecursion};
ghost use Rattle.wm_machine.specs.Closed.{IsDescendantWhere};
ghost use Rattle.wm_machine.specs.Enqueued.{enqueued, plan_in, refusal_of};
ghost use Rattle.wm_machine.specs.Finished.{FinishNow};
ghost use Rattle.wm_machine.specs.Group.{is_name, members_of, AreAloneOrOneTime, IsApartFrom};
ghost use Rattle.wm_machine.specs.Outcome.{IsAskable};
ghost use Rattle.wm_machine.specs.Log.{commands_of};
ghost use Rattle.wm_machine.specs.Opened.{IsOfLog, Opened};
ghost use Rattle.wm_machine.specs.Plan.{replacing, Places};
ghost use Rattle.wm_machine.specs.Replay.{Replay};
ghost use Rattle.wm_machine.specs.Reports.{IsReportedOnce};
ghost use Rattle.wm_machine.specs.Serial.{AreInOrder, BeginsSerial};
ghost use Rattle.wm_machine.specs.Started.{HadItsPrerequisites};
ghost use Rattle.wm_machine.specs.Step.{Legal, Step, after};
ghost use Rattle.wm_collections.specs.Lists.{HasOne};
ghost use Rattle.wm_machine.specs.Valid.{Valid};
ghost use Rattle.wm_machine.specs.declared.command.Command.{Command};
ghost use Rattle.wm_machine.specs.declared.command.UniqueName.{UniqueName};
ghost use Rattle.wm_machine.specs.declared.event.Event.{Event};
ghost use Rattle.wm_machine.specs.declared.event.Event.TheVariants as event;
ghost use Rattle.wm_data.specs.declared.data.DataEntry.{DataEntry};
ghost use Rattle.wm_request.specs.declared.request.Node.{Node};
ghost use Rattle.wm_machine.specs.declared.record.Record.{Record};
ghost use Rattle.wm_keeper.specs.declared.row.Row.{Row};
ghost use Rattle.wm_machine.specs.declared.state.Instance.{Instance};
ghost use Rattle.wm_machine.specs.declared.state.State.{State};

/// A state that a store opens to is valid, and no run is unreturned in it. Every state of a log that
/// replays from there is valid.
pub fn an_opened_state_is_valid()
    ensures opened { (rows : List Row) (instances : List Instance) (first : State)
        → Opened rows instances first → Valid first × (first.runs ≡ []) }
    ensures of_log { (s : State) → IsOfLog s → Valid s }
{}

/// Every step keeps what holds of every state that the machine reaches.
pub fn every_step_keeps_valid()
    ensures { (s : State) (e : Event) → Valid s → Legal s e → Valid (after s e) }
{}

/// Each record that is finished after a step, and before it was unfinished or wasn't there, has the
/// moment of that step as the one at which it finished.
pub fn what_a_step_finishes_has_its_moment()
    ensures { (s t : State) (e : Event) → Step s e t → FinishNow s.now s.works t.works }
{}

/// A report that comes too late changes no record.
pub fn a_late_report_changes_no_record()
    ensures { (s : State) (number : ℕ) → (after s (event.Late number)).works ≡ s.works }
{}

/// A log in serial order from a state without runs, with at most one run unreturned at its end, goes
/// on to the log of a whole serial run over its lines and those that are left. So a run that stops early, whatever stopped
/// it, leaves a front of a serial log.
pub fn serial_order_goes_on()
    ensures from_rest { (lines left : List Command) (first now : State) (log : List Event)
        → AllByRecursion IsAskable left → lines ≡ commands_of log ++ left
        → first.runs ≡ [] → Replay first log now → Valid now → length now.runs ≤ 1
        → AreInOrder lines first log → BeginsSerial lines first log }
    ensures from_opened { (lines left : List Command) (rows : List Row) (instances : List Instance)
        (first now : State) (log : List Event)
        → AllByRecursion IsAskable left → lines ≡ commands_of log ++ left
        → Opened rows instances first → Replay first log now → length now.runs ≤ 1
        → AreInOrder lines first log → BeginsSerial lines first log }
{}

/// Each run that a log starts is reported once: its number is no other start's, no report of it
/// precedes its start, at most one follows, and just one where there is nothing left to do in the end.
/// The report comes too late, and counts for nothing, just where a line between the two stopped the
/// run.
pub fn each_run_is_reported_once()
    ensures from_valid { (first last : State) (before later : List Event) (run seq instance : ℕ) (input : List DataEntry)
        → Valid first → Replay first (before ++ event.Start run seq instance input ∷ later) last
        → IsReportedOnce first run before (event.Start run seq instance input) later last }
    ensures from_opened { (rows : List Row) (instances : List Instance) (first last : State)
        (before later : List Event) (run seq instance : ℕ) (input : List DataEntry)
        → Opened rows instances first
        → Replay first (before ++ event.Start run seq instance input ∷ later) last
        → IsReportedOnce first run before (event.Start run seq instance input) later last }
{}

/// At each start of a log every prerequisite of its work had succeeded, and one-time work took what
/// its merger made of its own input and of their outputs, in the order in which it names them;
/// periodic work took its own.
pub fn each_start_had_its_prerequisites()
    ensures { (first last : State) (before later : List Event) (run seq instance : ℕ) (input : List DataEntry)
        → Replay first (before ++ event.Start run seq instance input ∷ later) last
        → HadItsPrerequisites first before seq input }
{}

/// The records that a failure or a cancelling of a work reaches, as far as they are unfinished: a
/// record is a descendant of a work exactly where it is that work, or one of its prerequisites is
/// such a descendant.
pub fn descendants_follow_prerequisites()
    ensures { (s : State) (seq : ℕ) → Valid s → AllByRecursion (IsDescendantWhere seq s.works) s.works }
{}

/// The works of one unique name are all one-time, or there is one alone.
pub fn a_name_is_of_one_kind()
    ensures { (s : State) (name : List ℕ) → Valid s → AreAloneOrOneTime (members_of s.works name) }
{}

/// Where an enqueue under a unique name replaces the works that have it, the name is that of the new
/// works alone: no older record has it.
pub fn a_name_passes_to_new_works()
    ensures { (s : State) (unique : UniqueName) (works : List Node)
        → plan_in s unique ≡ Places (replacing (members_of s.works unique.name))
        → refusal_of s (Some unique) works ≡ None
        → AllByRecursion (λ work. is_name unique.name work.name ≡ true → s.next ≤ work.seq)
        (enqueued s (Some unique) works).state.works }
{}

/// An enqueue under a unique name leaves each record as it is that hasn't the name and doesn't come
/// after an unfinished work that has it.
pub fn a_name_touches_its_own()
    ensures { (s : State) (unique : UniqueName) (works : List Node) (work : Record)
        → Valid s → HasOne (λ other. other ≡ work) s.works → IsApartFrom s.works unique.name work
        → HasOne (λ other. other ≡ work) (enqueued s (Some unique) works).state.works }
{}
