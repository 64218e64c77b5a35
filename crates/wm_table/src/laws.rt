//! Laws of logs and their rows, over the definitions alone. Each is the contract of a function that
//! does nothing.
ghost use Rattle.std.specs.Prelude.{◌≡◌, ◌∷◌, ℕ, List, Option};
ghost use Rattle.wm_collections.specs.Lists.{HasOne};
ghost use Rattle.wm_machine.specs.Replay.{Replay};
ghost use Rattle.wm_machine.specs.Rows.{rows_of};
ghost use Rattle.wm_machine.specs.Step.{after};
ghost use Rattle.wm_machine.specs.declared.command.Command.TheVariants as command;
ghost use Rattle.wm_machine.specs.declared.command.UniqueName.{UniqueName};
ghost use Rattle.wm_machine.specs.declared.event.Event.{Event};
ghost use Rattle.wm_machine.specs.declared.event.Event.TheVariants as event;
ghost use Rattle.wm_machine.specs.declared.reply.Reply.TheVariants as reply;
ghost use Rattle.wm_machine.specs.declared.state.State.{State};
ghost use Rattle.wm_request.specs.declared.request.Batch.{Batch};
ghost use Rattle.wm_table.specs.Acknowledged.{HasRow, NoneRemoves};

/// Work that was acknowledged is kept: each number in the reply to an enqueue stands in the rows of
/// every later state, unless an event after it removed its work.
///
/// With the clause `crash` of a run: what a crash leaves are the rows of its last state, or of the
/// state after one event more, which counts here as a later one.
pub fn what_was_acknowledged_is_kept()
    ensures { (s last : State) (line : ℕ) (named : Option UniqueName) (batch : Batch) (numbers : List ℕ)
        (number : ℕ) (later : List Event)
        → Replay s (event.Command line (command.Enqueue named batch) (reply.Enqueued numbers) ∷ later) last
        → HasOne (λ one. one ≡ number) numbers
        → NoneRemoves number (after s (event.Command line (command.Enqueue named batch) (reply.Enqueued numbers))) later
        → HasRow number (rows_of last) }
{}
