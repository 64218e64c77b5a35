//! Laws of opening, over the definitions alone. Each is the contract of a function that does nothing.
ghost use Rattle.std.specs.Prelude.{◌≡◌, List, map};
ghost use Rattle.wm_keeper.specs.declared.row.Row.{Row};
ghost use Rattle.wm_machine.specs.Opened.{opening_state, reopened, AreFresh, Opened};
ghost use Rattle.wm_machine.specs.Rows.{rows_of};
ghost use Rattle.wm_machine.specs.Valid.{Valid};
ghost use Rattle.wm_machine.specs.declared.state.Instance.{Instance};
ghost use Rattle.wm_machine.specs.declared.state.State.{State};
ghost use Rattle.wm_rows.specs.Sound.{AreSound};

/// What rows open to, in either form, is what its own rows open to, so that a store which was opened and
/// then left alone opens to the same.
pub fn opening_again_changes_nothing()
    ensures { (rows : List Row) (instances : List Instance) (first : State) → Opened rows instances first
        → Opened (rows_of first) instances first }
{}

/// Rows open to one state at most.
pub fn rows_open_to_one_state()
    ensures { (rows : List Row) (instances : List Instance) (first other : State) → Opened rows instances first
        → Opened rows instances other → first ≡ other }
{}

/// The rows that are kept for a state are sound, and open to its records, where work that was running
/// waits again.
pub fn what_a_state_keeps_is_opened()
    ensures sound { (s : State) → Valid s → AreSound (rows_of s) }
    ensures opened { (s : State) (instances : List Instance) → Valid s → AreFresh instances
        → Opened (rows_of s) instances (opening_state (map reopened s.works) instances) }
{}
