//! Laws of asks, over the definitions alone. Each is the contract of a function that does nothing.
ghost use Rattle.std.specs.Prelude.{◌≡◌, ℕ, List, Result, true};
ghost use Rattle.wm_asks.specs.Asked.{ComesTo};
ghost use Rattle.wm_asks.specs.Drains.{IsDrain, IsReady, IsStartOf};
ghost use Rattle.wm_asks.specs.Meet.{meet};
ghost use Rattle.wm_asks.specs.Parts.{IsPart, StartsWhatIsMet};
ghost use Rattle.wm_asks.specs.declared.ask.Ask.{Ask};
ghost use Rattle.wm_asks.specs.declared.ask.LiveReply.{LiveReply};
ghost use Rattle.wm_collections.specs.Lists.{HasOne};
ghost use Rattle.wm_conditions.specs.Met.{met};
ghost use Rattle.wm_conditions.specs.declared.conditions.Conditions.{Conditions};
ghost use Rattle.wm_conditions.specs.declared.conditions.Constraints.{Constraints};
ghost use Rattle.wm_machine.specs.Quiet.{IsQuiet};
ghost use Rattle.wm_machine.specs.Valid.{Valid};
ghost use Rattle.wm_machine.specs.declared.command.Command.{Command};
ghost use Rattle.wm_machine.specs.declared.event.Event.{Event};
ghost use Rattle.wm_machine.specs.declared.state.State.{State};

/// Conditions that were changed to meet constraints meet them.
pub fn what_is_changed_to_meet_meets()
    ensures { (c : Constraints) (x : Conditions) → met c (meet c x) ≡ true }
{}

/// A drain starts each work that waits for nothing but a worker, or shows that it can't start: until
/// then the work goes on to wait so.
pub fn a_drain_starts_what_is_ready()
    ensures { (number : ℕ) (s : State) (events : List Event) (last : State) → Valid s
        → IsDrain s events last → HasOne (IsReady number s) s.works → HasOne (IsStartOf number) events }
{}

/// Where in a quiet state the delay or the period of a work is met whose constraints are met, or the
/// constraints of a work that is due, the part of the log that the ask makes starts it, or shows that it can't start.
pub fn what_is_met_starts()
    ensures { (s : State) (line : ℕ) (asked : Ask) (told : List ℕ) (come : Result Command LiveReply)
        (given : LiveReply) (events : List Event) (last : State) → Valid s → IsQuiet s
        → ComesTo s asked told come → IsPart s line come given events last → StartsWhatIsMet s asked given events }
{}
