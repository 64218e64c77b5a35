//! Clocks.
ghost use Rattle.std.specs.Prelude.{◌≡◌, ◌++◌, ◌<◌, ◌^◌, ℕ, List, [], ◌∷◌, length};
ghost use Rattle.wm_asks.specs.Clocks.{stepped};

use wm_machine::NUMBERS_END;

/// The greatest moment that a line may set, in milliseconds.
pub const LAST_MOMENT: u64 = NUMBERS_END - 1;

/// What tells moments. A contract sees the list of the answers that it has given, and its pace.
pub trait Clock {
    /// The answers that it has given, in order.
    ghost answers: { Self → List ℕ };

    /// What it goes by, which stays, as the step of a clock of equal steps.
    ghost pace: { Self → ℕ };

    /// The next answer, a moment in milliseconds.
    fn now(&mut self) -> u64
        requires { length (answers self.old) < 2 ^ 53 }
        ensures answers { answers self.new ≡ answers self.old ++ result ∷ [] }
        ensures pace { pace self.new ≡ pace self.old };
}

/// A clock that answers its step, then twice its step, and so on, and stays at 2^53 - 1 from where it
/// would pass it.
#[derive(Debug, Drop)]
pub struct StepClock {
    step: u64,
    /// How many answers it has given.
    count: u64,
}

impl StepClock {
    /// A clock with this step, in milliseconds, which has given no answer.
    pub fn new(step: u64) -> StepClock
        ensures { result ≡ record { step = step; count = 0 } }
    {
        StepClock { step, count: 0 }
    }
}

/// The answer of this number, from 1, of a clock with this step.
fn stepped(step: u64, number: u64) -> u64
    ensures { result ≡ stepped step number }
{
    number.saturating_mul(step).min(LAST_MOMENT)
}

impl Clock for StepClock {
    ghost use Rattle.wm_asks.specs.Clocks.{answers_of};

    ghost answers = { λ clock. answers_of clock.step clock.count };

    ghost pace = { λ clock. clock.step };

    fn now(&mut self) -> u64 {
        self.count += 1;
        stepped(self.step, self.count)
    }
}
