//! Numbers that are drawn one after another from a first one, and what they are drawn for.
ghost use Rattle.std.specs.Prelude.{◌≡◌, ◌<◌, IfOk};
ghost use Rattle.wm_generator.specs.Generated.{drawn, drawn_constraints, drawn_input, next_number};

use std::alloc::{AllocError, Global};
use wm_collections::{Items, Text};
use wm_conditions::{Constraints, constraints_of};
use wm_data::{Data, DataEntry, Value, entries_size};

/// The factor and the term by which a number gives the next one, those of Knuth's MMIX.
const FACTOR: u64 = 6_364_136_223_846_793_005;

const TERM: u64 = 1_442_695_040_888_963_407;

/// How many signatures there are.
const SIGNATURES: u64 = 80;

/// The number after the greatest input.
const INPUTS_END: u64 = 1_000;

/// Draws, by the number that the last one was made of; before the first one it is the seed.
#[derive(Debug, Drop)]
pub(crate) struct Draws {
    pub(crate) number: u64,
}

impl Draws {
    /// Draws one of 0 to `end` - 1.
    #[tactic(auto, unfolding(crate::specs::Generated::drawn))]
    fn draw(&mut self, end: u64) -> u64
        requires { 0 < end }
        ensures next { self.new.number ≡ next_number self.old.number }
        ensures drawn { result ≡ drawn (next_number self.old.number) end }
        ensures within { result < end }
    {
        self.number = next_number(self.number);
        (self.number >> 33) % end
    }

    /// Draws the constraints of a work, by their signature.
    #[tactic(auto, unfolding(crate::specs::Generated::drawn_constraints))]
    pub(crate) fn constraints(&mut self) -> Constraints
        ensures next { self.new.number ≡ next_number self.old.number }
        ensures drawn { result ≡ drawn_constraints (next_number self.old.number) }
    {
        constraints_of(self.draw(SIGNATURES) as u8)
    }

    /// Draws the input of a work, an Int under `x`. Memory that is refused is the only error.
    #[tactic(auto, unfolding(crate::specs::Generated::drawn_input))]
    pub(crate) fn input(&mut self, alloc: Global) -> Result<Data, AllocError>
        ensures next { self.new.number ≡ next_number self.old.number }
        ensures drawn { IfOk result (λ input. input ≡ drawn_input (next_number self.old.number)) }
    {
        let number = self.draw(INPUTS_END);
        let key = Text::from_str(alloc, "x")?;
        let value = Value::Int(number as i32);
        let mut entries = Items::new(alloc);
        entries.push(DataEntry { key, value })?;
        let size = entries_size(entries.as_slice())?;
        Data::from_entries(alloc, entries, size)
    }
}

/// The number after another one.
#[tactic(auto, unfolding(crate::specs::Generated::next_number))]
fn next_number(number: u64) -> u64
    ensures { result ≡ next_number number }
{
    number.wrapping_mul(FACTOR).wrapping_add(TERM)
}
