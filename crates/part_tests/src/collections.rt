//! The list, the text and the replica, of `wm_collections`.
use crate::checks::expect_same;
use std::alloc::{AllocError, Global};
use std::fmt::Debug;
use std::process::Abort;
use std::test::Fail;
use wm_collections::{Items, Replica, Text, is_among};

#[test]
fn a_list_grows(rt: HostRuntime) -> Result<(), Fail> {
    let alloc = rt.alloc();
    let mut first = Items::new(alloc);
    let mut second = Items::from_vec(vec![in alloc; 7u8]?);
    assert!(rt; first.is_empty());
    first.push(1u8)?;
    first.push(2)?;
    second.push(8)?;
    assert!(rt; first.len() == 2 && second.len() == 2);
    assert_eq!(rt; first.as_slice(), [1, 2].as_slice());
    assert_eq!(rt; second.into_vec().as_slice(), [7, 8].as_slice());
    assert!(rt; is_among(&[3, 4], 4) && !is_among(&[3, 4], 5));
    Ok(())
}

fn copied<T: Replica>(alloc: Global, value: &T) -> Result<T, AllocError> {
    value.replica(alloc)
}

/// A list of one text.
fn one_text(alloc: Global) -> Result<Items<Text>, AllocError> {
    Ok(Items::from_vec(vec![in alloc; Text::from_str(alloc, "héllo")?]?))
}

/// The copy of a list of one text has that text.
fn expect_one_text(rt: &impl Abort, texts: &[Text]) {
    assert_eq!(rt; texts.len(), 1);
    for text in texts {
        assert_eq!(rt; text.as_str(), "héllo");
        assert_eq!(rt; text.len(), 6);
        assert!(rt; !text.is_empty());
    }
}

/// The copy of a list of one text.
fn copied_text(alloc: Global) -> Result<Items<Text>, AllocError> {
    let texts = one_text(alloc)?;
    copied(alloc, &texts)
}

/// The copy of a value is equal to another one.
fn expect_copy<T: Replica + Copy + Debug + PartialEq>(
    rt: &impl Abort,
    alloc: Global,
    value: T,
    expected: T,
) -> Result<(), AllocError> {
    expect_same(rt, copied(alloc, &value)?, expected);
    Ok(())
}

/// Copies of numbers are equal to them.
fn expect_numbers(rt: &impl Abort, alloc: Global) -> Result<(), AllocError> {
    expect_copy(rt, alloc, Some(3u64), Some(3))?;
    expect_copy(rt, alloc, None::<i64>, None)?;
    expect_copy(rt, alloc, 7u8, 7)?;
    expect_copy(rt, alloc, -7i8, -7)?;
    expect_copy(rt, alloc, true, true)?;
    expect_copy(rt, alloc, -9i32, -9)
}

#[test]
fn a_replica_is_equal(rt: HostRuntime) -> Result<(), Fail> {
    let alloc = rt.alloc();
    expect_one_text(&rt, copied_text(alloc)?.as_slice());
    expect_numbers(&rt, alloc)?;
    let string = Text::from_string(String::from_str(alloc, "a")?).into_string();
    assert_eq!(rt; string.as_str(), "a");
    Ok(())
}
