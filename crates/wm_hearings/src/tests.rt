//! What a feed in memory tells, and the edges of moments.
use crate::feed::{Feed, ListFeed};
use crate::hearing::{Heard, Hearing, Terms};
use crate::moments::{end_after, has_overslept};
use std::alloc::{AllocError, Global};
use std::test::Fail;
use wm_collections::Items;

/// A feed of two pauses, at 5 and at 7.
fn two_pauses(alloc: Global) -> Result<ListFeed, AllocError> {
    let mut hearings = Items::new(alloc);
    for at in [5, 7] {
        hearings.push(Hearing {
            at,
            heard: Heard::Pause,
        })?;
    }
    Ok(ListFeed::new(alloc, hearings))
}

/// When the next hearing is, and whether it is that of the end.
fn next(alloc: Global, feed: &mut ListFeed) -> Result<(u64, bool), AllocError> {
    let hearing = feed.next(alloc, Some(0))?;
    Ok((hearing.at, matches!(hearing.heard, Heard::End)))
}

/// What four calls of a feed of two pauses tell.
fn four_told(alloc: Global) -> Result<Vec<(u64, bool)>, AllocError> {
    let mut feed = two_pauses(alloc)?;
    let mut told = Vec::new(alloc);
    for _i in 0..4 {
        told.push(next(alloc, &mut feed)?)?;
    }
    Ok(told)
}

#[test]
fn a_list_is_told_and_then_the_end(rt: HostRuntime) -> Result<(), Fail> {
    let told = four_told(rt.alloc())?;
    let expected = [(5, false), (7, false), (7, true), (7, true)];
    assert_eq!(rt; told.as_slice(), expected.as_slice());
    Ok(())
}

#[test]
fn a_lease_ends_and_a_machine_sleeps(rt: HostRuntime) {
    let last = (1 << 53) - 1;
    for (moment, lease, end) in [
        (5, 1_000, Some(1_005)),
        (last - 1, 1, Some(last)),
        (last, 1, None),
    ] {
        assert_eq!(rt; end_after(moment, lease), end, "from {moment}");
    }
    for (lease, until, moment, overslept) in [
        (1_000, Some(1_005), 1_105, false),
        (1_000, Some(1_005), 1_106, true),
        (2_000, Some(2_005), 2_205, false),
        (2_000, Some(2_005), 2_206, true),
        (1_000, None, 900_000, false),
    ] {
        let terms = Terms { number: 7, lease };
        assert_eq!(rt;
            has_overslept(&terms, until, moment),
            overslept,
            "at {moment}"
        );
    }
}
