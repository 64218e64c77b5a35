//! What a seed gives, against values that were reckoned apart.
use std::alloc::{AllocError, Global};
use std::test::Fail;
use uuid::Uuid;
use wm_collections::Items;
use wm_conditions::signature;
use wm_data::{Data, Value};
use wm_generator::generate;
use wm_machine::Command;
use wm_request::{Node, Request};

/// Whether Data holds this Int under `x`.
fn has_int(input: &Data, number: i32) -> bool {
    match input.get("x") {
        Some(Value::Int(found)) => *found == number,
        _ => false,
    }
}

/// Whether a request is of an Echo with constraints of this signature and this Int.
fn is_drawn(request: &Request, number: u8, int: i32) -> bool {
    request.class().as_str() == "Echo"
        && signature(&request.constraints()) == number
        && has_int(request.input(), int)
}

/// Whether these are the works of the first group after seed 1.
fn are_first(works: &[Node]) -> bool {
    match works {
        [a, b, c, d, e] => {
            is_drawn(&a.request, 54, 153)
                && is_drawn(&b.request, 76, 870)
                && is_drawn(&c.request, 74, 795)
                && d.request.class().as_str() == "Sum"
                && d.after.len() == 3
                && e.request.class().as_str() == "Echo"
                && e.after.len() == 1
                && e.request.id() == Uuid::from_u128((1 << 64) + 5)
        }
        _ => false,
    }
}

/// Whether the third command enqueues the first group after seed 1.
fn has_first_group(commands: &[Command]) -> bool {
    match commands.get(2) {
        Some(Command::Enqueue { batch, .. }) => are_first(batch.works().as_slice()),
        _ => false,
    }
}

/// How many commands seed 1 gives with one group, and whether that group is the first one.
fn one_group(alloc: Global) -> Result<(usize, bool), AllocError> {
    let commands: Items<Command> = generate(alloc, 1, 1)?;
    Ok((commands.len(), has_first_group(commands.as_slice())))
}

#[test]
fn one_group_after_one(rt: HostRuntime) -> Result<(), Fail> {
    let (count, is_first) = one_group(rt.alloc())?;
    assert_eq!(rt; count, 11);
    assert!(rt; is_first);
    Ok(())
}
