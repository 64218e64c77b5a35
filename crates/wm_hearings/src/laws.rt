//! Laws of hearings, over the definitions alone. Each is the contract of a function that does nothing.
ghost use Rattle.std.specs.Prelude.{◌≡◌, ◌≢◌, ◌^◌, ◌<◌, ◌≤◌, ◌++◌, ◌∷◌, ℕ, false, List, [], Option, None};
ghost use Rattle.wm_data.specs.declared.data.DataEntry.{DataEntry};
ghost use Rattle.wm_hearings.specs.Hears.{date, is_last, Hears};
ghost use Rattle.wm_hearings.specs.Moments.{wake_of};
ghost use Rattle.wm_hearings.specs.Parts.{Part};
ghost use Rattle.wm_hearings.specs.Reports.{reports, ReportsOn};
ghost use Rattle.wm_hearings.specs.Runs.{named};
ghost use Rattle.wm_hearings.specs.Session.{AreOutRuns, Session};
ghost use Rattle.wm_hearings.specs.Sessions.{AreHeard, events_of};
ghost use Rattle.wm_hearings.specs.Waits.{NothingWaits};
ghost use Rattle.wm_hearings.specs.declared.hearing.Hearing.{Hearing};
ghost use Rattle.wm_hearings.specs.declared.hearing.Stage.TheVariants.{Open};
ghost use Rattle.wm_hearings.specs.declared.hearing.Terms.{Terms};
ghost use Rattle.wm_machine.specs.Replay.{Replay};
ghost use Rattle.wm_machine.specs.Reports.{IsReportedOnce};
ghost use Rattle.wm_machine.specs.Valid.{Valid};
ghost use Rattle.wm_machine.specs.declared.event.Event.{Event};
ghost use Rattle.wm_machine.specs.declared.event.Event.TheVariants as event;
ghost use Rattle.wm_machine.specs.declared.state.State.{State};
ghost use Rattle.wm_serve_text.specs.Names.{run_name};
ghost use Rattle.wm_steps.specs.Wakes.{IsWakeOf};

/// The events of all hearings, one hearing after another, replay from the first state to the last one.
/// After each hearing the runs of the state are those that are out, each once.
pub fn hearings_replay()
    ensures { (terms : Terms) (first last : Session) (hearings : List (ℕ × Hearing)) (parts : List Part)
        → AreHeard terms first hearings parts last
        → Replay first.state (events_of parts) last.state × (AreOutRuns first → AreOutRuns last) }
{}

/// What a hearing comes to is determined by the session before it and by what is heard: its events, its
/// text and the session after it. So are those of hearings one after another.
pub fn hearings_are_determined()
    ensures one { (terms : Terms) (n : ℕ) (hearing : Hearing) (old : Session) (one other : Part)
        → Hears terms n hearing old one → Hears terms n hearing old other → one ≡ other }
    ensures all { (terms : Terms) (first last other_last : Session) (hearings : List (ℕ × Hearing))
        (parts others : List Part) → AreHeard terms first hearings parts last
        → AreHeard terms first hearings others other_last → (parts ≡ others) × (last ≡ other_last) }
{}

/// Each event that reports on a run is made by one hearing, for the one line that names its run, or since
/// the lease of its run is over. A line makes at most one event, and one that names no run that is out
/// reports on none. No run times out. A hearing by which the input ends makes no report.
pub fn each_report_is_of_one_line()
    ensures goes_on { (terms : Terms) (n : ℕ) (hearing : Hearing) (old : Session) (part : Part)
        → Hears terms n hearing old part → is_last hearing.heard ≡ false → ReportsOn terms n hearing old part }
    ensures ends { (terms : Terms) (at : ℕ) (old : Session) → reports (date terms at old).events ≡ [] }
{}

/// So each run that starts is reported on once at most, and its report comes too late just where a line
/// between the two stopped it.
pub fn each_start_is_reported_once()
    ensures { (terms : Terms) (first last : Session) (hearings : List (ℕ × Hearing)) (parts : List Part)
        (before later : List Event) (run seq instance : ℕ) (input : List DataEntry)
        → Valid first.state → AreHeard terms first hearings parts last
        → events_of parts ≡ before ++ event.Start run seq instance input ∷ later
        → IsReportedOnce first.state run before (event.Start run seq instance input) later last.state }
{}

/// The name of a run of another session is that of no run that is out.
pub fn no_other_session_is_named()
    ensures { (terms : Terms) (other run : ℕ) (session : Session)
        → terms.number < 2 ^ 64 → other < 2 ^ 64 → other ≢ terms.number
        → named terms (run_name other run) session ≡ None }
{}

/// After a hearing that isn't the last, unless the session is closing, nothing waits: all that can be done
/// at the clock was done, and nothing comes up by itself before the moment that the session tells.
pub fn nothing_waits_after_a_hearing()
    ensures { (terms : Terms) (n : ℕ) (hearing : Hearing) (old : Session) (part : Part)
        → 1 ≤ terms.lease → Hears terms n hearing old part → is_last hearing.heard ≡ false
        → part.session.stage ≡ Open → NothingWaits part.session }
{}

/// The moment at which a state wakes, computed, is the one at which it does.
pub fn the_wake_is_computed()
    ensures of { (s : State) → IsWakeOf s (wake_of s) }
    ensures one { (s : State) (wake : Option ℕ) → IsWakeOf s wake → wake ≡ wake_of s }
{}
