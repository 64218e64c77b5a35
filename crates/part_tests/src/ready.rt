//! Which entry is the first one, and when the next one is due.
use std::alloc::{AllocError, Global};
use std::test::Fail;
use wm_ready::Ready;

/// Three entries: two are due at 5, and one of another class at 3.
fn three_entries(alloc: Global) -> Result<Ready, AllocError> {
    let mut ready = Ready::new(alloc);
    ready.put(5, 1, 0, 0)?;
    ready.put(5, 2, 16, 0)?;
    ready.put(3, 3, 0, 1)?;
    Ok(ready)
}

#[test]
fn ready_first_and_wake(rt: HostRuntime) -> Result<(), Fail> {
    let ready = three_entries(rt.alloc())?;
    let met = 1 | 1 << 16;
    let found = (
        ready.first(5, met, &[]),
        ready.first(5, met, &[1]),
        ready.first(2, met, &[]),
        ready.wake(2, met, &[]),
    );
    drop(ready);
    assert_eq!(rt; found, (Some(3), Some(1), None, Some(3)));
    Ok(())
}
