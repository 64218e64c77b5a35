//! What is done to a table and a bench at once: a line is executed, and a ticket and its worker put
//! back.
ghost use Rattle.std.specs.Prelude.{◌≡◌, ℕ, Some, OnOk, OnErr};
ghost use Rattle.wm_bench.specs.Places.{changed_at, made_back, IsAwayAt};
ghost use Rattle.wm_collections.specs.Lists.{last_of};
ghost use Rattle.wm_machine.specs.Outcome.{IsLegalLine};
ghost use Rattle.wm_machine.specs.declared.event.Event.TheVariants as event;
ghost use Rattle.wm_machine.specs.declared.command.Command.{Command};
ghost use Rattle.wm_machine.specs.declared.reply.Reply.{Reply};
ghost use Rattle.wm_seating.specs.Bench.{places_after};
ghost use Rattle.wm_roll.specs.Parts.{without};
ghost use Rattle.wm_engine.specs.Images.{IsLine};
ghost use Rattle.wm_engine.specs.Parts.{WasOut};
ghost use Rattle.wm_engine.specs.Calls.{IsOneStep, IsUntouched, TroubleCause};

use wm_bench::{Bench, Seated};
use wm_keeper::Keeper;
use wm_machine::{Command, Event};
use wm_table::{Mark, Table, Ticket, Trouble};
use wm_worker::Worker;

/// Executes the command of a line, and retires a class that it retires on the bench. Its reply
/// stands in the table's last event.
pub fn execute<K: Keeper, B: Worker, M: Mark>(
    table: &mut Table<K, M>,
    bench: &mut Bench<B>,
    line: u32,
    command: Command,
) -> Result<(), Trouble>
    requires { IsLegalLine table.old.state command }
    ensures ok { OnOk result ((reply : Reply)
        × IsOneStep K.store (event.Command line command reply) table.old table.new) }
    ensures err { OnErr result (IsUntouched K.store (IsLine line command) table.old table.new) }
    ensures places { OnOk result (bench.new ≡ places_after B.kind_of command bench.old) }
    ensures places_err { OnErr result (bench.new ≡ bench.old) }
    ensures cause { TroubleCause result (K.store table.old.keeper).faults (K.store table.new.keeper).faults }
    ensures roll { table.new.roll ≡ table.old.roll }
{
    table.execute(line, command)?;
    retire_last(table, bench);
    Ok(())
}

/// Retires a class on the bench, where the table's last event is a line that retires it.
pub fn retire_last<K: Keeper, B: Worker, M: Mark>(table: &Table<K, M>, bench: &mut Bench<B>)
    ensures { (line : ℕ) (asked : Command) (reply : Reply)
        → last_of table.now.log ≡ Some (event.Command line asked reply)
        → bench.new ≡ places_after B.kind_of asked bench.old }
{
    if let Some(Event::Command { command, .. }) = table.last_event() {
        retire(bench, command.value());
    }
}

/// Retires a class on the bench, where a line retires it.
fn retire<B: Worker>(bench: &mut Bench<B>, command: &Command)
    ensures { bench.new ≡ places_after B.kind_of command.now bench.old }
{
    if let Command::Retire(class) = command {
        let _dropped = bench.retire(class.as_str());
    }
}

/// Takes a ticket without an event, and gives its worker back to the bench.
pub fn give_back<K: Keeper, B: Worker, M: Mark>(
    table: &mut Table<K, M>,
    bench: &mut Bench<B>,
    ticket: Ticket<M>,
    seat: Seated<B>,
)
    requires away { WasOut table.old.state table.old.roll ticket
        → IsAwayAt seat.number (B.kind_of seat.worker) bench.old }
    ensures table { table.new
        ≡ record table.old { roll = without ticket.task.run table.old.roll } }
    ensures out { WasOut table.old.state table.old.roll ticket }
    ensures places { bench.new ≡ changed_at (made_back B.kind_of seat.worker) seat.number bench.old }
{
    table.take_back(ticket);
    bench.give(seat);
}
