//! The stock worker that adds up numbers.
ghost use Rattle.std.specs.Prelude.{◌≡◌, ◌≤◌, ◌*◌, length, nat_abs};
ghost use Rattle.wm_data.specs.Size.{payload};
ghost use Rattle.wm_worker.specs.Answers.{summand, sum_of, total};

use crate::input::entry_alone;
use crate::stock::{Answering, Stock};
use std::alloc::{AllocError, Global};
use wm_data::{Data, Value};
use wm_worker::{Answer, Kind, Task};

/// Succeeds in its first turn, with `sum`, a Long: the sum of all Int values of its input and of
/// all elements of its Ints values. It doesn't look at the signal.
pub type Sum = Stock<Summing>;

/// What [`Sum`] answers.
#[derive(Debug, Drop)]
pub struct Summing;

impl Answering for Summing {
    ghost use Rattle.wm_worker.specs.declared.kind.Kind.TheVariants as kind;

    ghost KIND = { kind.Sum };

    ghost POLLS = { 0 };

    const KIND: Kind = Kind::Sum;

    const POLLS: u32 = 0;

    fn answer(alloc: Global, task: &Task, _k: u32) -> Result<Answer, AllocError> {
        let output = entry_alone(alloc, "sum", Value::Long(sum_of(&task.input)))?;
        Ok(Answer::Success(output))
    }
}

/// The sum of the Int values and of the elements of the Ints values. Data is so small that it fits.
fn sum_of(input: &Data) -> i64
    ensures { result ≡ sum_of input.now }
{
    let mut sum = 0;
    for entry in input.entries() {
        sum += summand(&entry.value);
    }
    sum
}

/// What a value adds to a sum. It is at most 2^31 for each of the value's bytes.
fn summand(value: &Value) -> i64
    requires { payload value.now ≤ 10240 }
    ensures summand { result ≡ summand value.now }
    ensures bound { nat_abs result ≤ 2147483648 * payload value.now }
{
    match value {
        Value::Int(number) => i64::from(*number),
        Value::Ints(numbers) => total(numbers.as_slice()),
        _ => 0,
    }
}

/// The sum of numbers. It is at most 2^31 for each of them.
fn total(numbers: &[i32]) -> i64
    requires { length numbers.now ≤ 10240 }
    ensures total { result ≡ total numbers.now }
    ensures bound { nat_abs result ≤ 2147483648 * length numbers.now }
{
    let mut sum = 0;
    for number in numbers {
        sum += i64::from(*number);
    }
    sum
}
