//! The lines that callers call, dealt to them one after another.
ghost use Rattle.std.specs.Prelude.{◌≡◌, ◌+◌, ◌-◌, ◌<◌, ◌^◌, ◌++◌, ◌∷◌, [], length, option_to_list, IfNone, IfOk, OnOk};
ghost use Rattle.std.specs.List.{AllByRecursion};
ghost use Rattle.wm_callers.specs.ForDesk.{IsForDesk};
ghost use Rattle.wm_callers_program.specs.Lines.{dealt, for_desk, lines_of, with_line};
ghost use Rattle.wm_machine.specs.Outcome.{IsAskable};

use std::alloc::{AllocError, Global};
use std::collections::VecDeque;
use std::marker::Model;
use wm_collections::Items;
use wm_machine::{Command, LineFault};

/// A line that a caller may call: its number, from 1, and what it asks for, which neither settles nor
/// observes.
#[derive(Drop)]
pub(crate) struct Line {
    pub(crate) number: u32,
    pub(crate) command: Command,
}

impl Model for Line {
    ghost use Rattle.wm_callers.specs.ForDesk.{IsForDesk};
    ghost use Rattle.wm_callers_program.specs.Lines.{AskedLine};
    ghost use Rattle.wm_machine.specs.Outcome.{IsAskable};

    ghost Value = { AskedLine };

    ghost view = { λ l. record { number = l.number; command = l.command } };

    ghost invariant = { λ l. IsAskable l.command × IsForDesk l.command };
}

impl Line {
    /// The line of this number, from 0. What settles or observes counts as no command of the grammar.
    fn new(index: u32, command: Command) -> Line
        requires askable { IsAskable command }
        requires few { index + 1 < 2 ^ 32 }
        ensures { result ≡ record { number = index + 1; command = for_desk command } }
    {
        Line {
            number: index + 1,
            command: for_desk(command),
        }
    }
}

/// What a desk is asked for by a line.
fn for_desk(command: Command) -> Command
    requires { IsAskable command }
    ensures askable { IsAskable result }
    ensures fits { IsForDesk result }
    ensures is { result ≡ for_desk command }
{
    match command {
        Command::Settle => Command::Faulty(LineFault::Bad),
        Command::Observe(query) => {
            drop(query);
            Command::Faulty(LineFault::Bad)
        }
        asked => asked,
    }
}

/// The lines of a caller that it has still to call, in order.
#[derive(Drop)]
pub(crate) struct Lot {
    lines: VecDeque<Line>,
}

impl Model for Lot {
    ghost use Rattle.std.specs.Prelude.{List};
    ghost use Rattle.wm_callers_program.specs.Lines.{AskedLine};

    ghost Value = { List AskedLine };

    ghost view = { λ l. l.lines.items };
}

impl Lot {
    /// No line.
    fn new(alloc: Global) -> Lot
        ensures { result ≡ [] }
    {
        Lot {
            lines: VecDeque::new(alloc),
        }
    }

    /// Adds a line at the end.
    fn push(&mut self, line: Line) -> Result<(), AllocError>
        ensures { OnOk result (self.new ≡ self.old ++ line ∷ []) }
    {
        self.lines.push_back(line)?;
        Ok(())
    }

    /// Takes the first line out.
    pub(crate) fn pop(&mut self) -> Option<Line>
        ensures first { self.old ≡ option_to_list result ++ self.new }
        ensures none { IfNone result (self.new ≡ []) }
    {
        self.lines.pop_front()
    }
}

/// Lots without lines, for so many callers.
fn empty_lots(alloc: Global, callers: u32) -> Result<Vec<Lot>, AllocError>
    ensures { IfOk result (λ lots. lots.items ≡ dealt callers []) }
{
    let mut lots = Vec::new(alloc);
    for _number in 0..callers {
        lots.push(Lot::new(alloc))?;
    }
    Ok(lots)
}

/// Adds a line to the lot at this place.
fn add(lots: &mut [Lot], place: usize, line: Line) -> Result<(), AllocError>
    requires { place < length lots.old }
    ensures { OnOk result (lots.new ≡ with_line place line lots.old) }
{
    lots[place].push(line)
}

/// Adds the lines of these commands to lots without lines: they go to them one after another.
fn deal_onto(lots: &mut [Lot], commands: Items<Command>, callers: u32) -> Result<(), AllocError>
    requires some { 0 < callers }
    requires few { length commands < 2 ^ 32 }
    requires askable { AllByRecursion IsAskable commands }
    requires empty { lots.old ≡ dealt callers [] }
    ensures { OnOk result (lots.new ≡ dealt callers (lines_of commands)) }
{
    let mut left = VecDeque::from_vec(commands.into_vec());
    let mut index = 0;
    while let Some(command) = left.pop_front() {
        let place = (index % callers) as usize;
        add(lots, place, Line::new(index, command))?;
        index += 1;
    }
    Ok(())
}

/// The lots of so many callers: the lines of these commands go to them one after another.
pub(crate) fn deal(
    alloc: Global,
    commands: Items<Command>,
    callers: u32,
) -> Result<Vec<Lot>, AllocError>
    requires some { 0 < callers }
    requires few { length commands < 2 ^ 32 }
    requires askable { AllByRecursion IsAskable commands }
    ensures { IfOk result (λ lots. lots.items ≡ dealt callers (lines_of commands)) }
{
    let mut lots = empty_lots(alloc, callers)?;
    deal_onto(lots.as_mut_slice(), commands, callers)?;
    Ok(lots)
}
