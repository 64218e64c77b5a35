//! A roll and its tokens, of `wm_roll`.
ghost use Rattle.std.specs.Prelude.{◌≡◌, ◌∷◌, [], IfOk};

use std::alloc::{AllocError, Global};
use std::test::Fail;
use wm_roll::{Part, Roll, Token};
use wm_worker::Kind;

/// What a roll has of run 3.
const THIRD: Part = Part {
    run: 3,
    instance: 0,
    kind: Kind::Echo,
};

/// What a roll has of run 4.
const FOURTH: Part = Part {
    run: 4,
    instance: 1,
    kind: Kind::Echo,
};

/// A roll that gave tokens for runs 3 and 4, with both.
fn give_two(alloc: Global) -> Result<(Roll, Token, Token), AllocError>
    ensures parts { IfOk result (λ given. given.0.parts ≡ record { run = 3; instance = 0; kind = Kind.Echo }
        ∷ record { run = 4; instance = 1; kind = Kind.Echo } ∷ []) }
    ensures third { IfOk result (λ given. given.1.table_id ≡ given.0.table_id) }
    ensures fourth { IfOk result (λ given. given.2.table_id ≡ given.0.table_id) }
    ensures run { IfOk result (λ given. given.1.part.run ≡ 3) }
{
    let mut roll = Roll::new(alloc)?;
    let third = roll.give(THIRD);
    let fourth = roll.give(FOURTH);
    Ok((roll, third, fourth))
}

/// Takes the token of run 3, and run 4 alone is left.
fn take_third(roll: &mut Roll, token: Token) -> Part
    requires own { token.table_id ≡ roll.old.table_id }
    requires run { token.part.run ≡ 3 }
    requires parts { roll.old.parts ≡ record { run = 3; instance = 0; kind = Kind.Echo }
        ∷ record { run = 4; instance = 1; kind = Kind.Echo } ∷ [] }
    ensures own { roll.new.table_id ≡ roll.old.table_id }
    ensures parts { roll.new.parts ≡ record { run = 4; instance = 1; kind = Kind.Echo } ∷ [] }
{
    roll.take(token)
}

/// Compiles for values that may go to another thread.
fn is_sendable<T: Send>(_value: &T) {}

#[test]
fn roll_gives_and_takes(rt: HostRuntime) -> Result<(), Fail> {
    let (mut roll, third, fourth) = give_two(rt.alloc())?;
    is_sendable(&roll);
    is_sendable(&third);
    assert_eq!(rt; (third.part(), fourth.part()), (THIRD, FOURTH));
    let back = take_third(&mut roll, third);
    assert_eq!(rt; back, THIRD);
    let last = roll.take(fourth);
    assert_eq!(rt; last, FOURTH);
    Ok(())
}
