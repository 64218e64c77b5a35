//! What an index finds, after each of its calls.
ghost use Rattle.std.specs.Prelude.{◌≡◌, IfOk, OnOk};
ghost use Rattle.part_tests.specs.Two.{two_works, with_third};

use std::alloc::{AllocError, Global};
use std::process::Abort;
use std::test::Fail;
use uuid::Uuid;
use wm_collections::Text;
use wm_index::Index;

/// A list of one text.
fn one(alloc: Global, text: &str) -> Result<Vec<Text>, AllocError> {
    let mut texts = Vec::new(alloc);
    texts.push(Text::from_str(alloc, text)?)?;
    Ok(texts)
}

/// An index of two works with these tags, the second under the name `n`.
fn two_works(alloc: Global, first: Uuid, second: Uuid, tags: &[Text]) -> Result<Index, AllocError>
    ensures { IfOk result (λ index. index ≡ two_works first second tags.entry.now) }
{
    let mut index = Index::new(alloc);
    index.insert(1, first, None, tags)?;
    if index.by_id(&second).is_some() {
        return Err(AllocError);
    }
    index.insert(2, second, Some("n"), tags)?;
    Ok(index)
}

/// What is found of two works with the tag `t`.
fn expect_two(rt: &impl Abort, index: &Index, first: Uuid, second: Uuid) {
    assert_eq!(rt; index.by_tag("t"), [1, 2].as_slice());
    assert_eq!(rt; index.by_tag("u"), [].as_slice());
    assert_eq!(rt; index.by_name("n"), [2].as_slice());
    assert_eq!(rt; index.by_name("t"), [].as_slice());
    assert_eq!(rt;
        (index.by_id(&first), index.by_id(&second)),
        (Some(1), Some(2))
    );
}

/// Takes the name of the second work away, and gives the first work other tags for its own.
fn change(
    index: &mut Index,
    first: Uuid,
    second: Uuid,
    tags: &[Text],
    others: &[Text],
) -> Result<(), AllocError>
    requires { index.old ≡ two_works first second tags.now }
{
    index.unname(2);
    index.add_tags(1, others)?;
    index.keep_tags(1, others);
    Ok(())
}

/// What is found once the first work has the tag `u` for its own.
fn expect_changed(rt: &impl Abort, index: &Index) {
    assert_eq!(rt; index.by_tag("t"), [2].as_slice());
    assert_eq!(rt; index.by_tag("u"), [1].as_slice());
    assert_eq!(rt; index.by_name("n"), [].as_slice());
}

/// What is found of two works, and of the second alone.
fn expect_removed(rt: &impl Abort, index: &mut Index, first: Uuid, second: Uuid, tags: &[Text])
    requires { index.old ≡ two_works first second tags.now }
{
    index.remove(1);
    assert_eq!(rt;
        (index.by_id(&first), index.by_id(&second)),
        (None, Some(2))
    );
    assert_eq!(rt; index.by_tag("t"), [2].as_slice());
}

/// Adds a third work with the tag `t`, which comes in place of the first and has no id yet.
fn prepare_third(
    index: &mut Index,
    first: Uuid,
    second: Uuid,
    tags: &[Text],
) -> Result<(), AllocError>
    requires { index.old ≡ two_works first second tags.now }
    ensures { OnOk result (index.new ≡ with_third first second tags.now) }
{
    index.prepare(3, None, tags)
}

/// What is found of a work that has no id yet, beside the one that has the id.
fn expect_prepared(rt: &impl Abort, index: &Index, first: Uuid) {
    assert_eq!(rt; index.by_id(&first), Some(1));
    assert_eq!(rt; index.by_tag("t"), [1, 2, 3].as_slice());
    assert!(rt; index.has(3));
}

/// What is found once the third work has the id of the first, which is gone.
fn expect_replaced(rt: &impl Abort, index: &mut Index, first: Uuid, second: Uuid, tags: &[Text])
    requires { index.old ≡ with_third first second tags.now }
{
    index.remove(1);
    assert!(rt; index.by_id(&first).is_none());
    index.identify(3, first);
    assert_eq!(rt;
        (index.by_id(&first), index.by_id(&second)),
        (Some(3), Some(2))
    );
    assert_eq!(rt; index.by_tag("t"), [2, 3].as_slice());
}

/// Two works of these ids with the tag `t`, looked up as they change.
fn look_up(rt: &impl Abort, alloc: Global, first: Uuid, second: Uuid) -> Result<(), AllocError> {
    let tags = one(alloc, "t")?;
    let others = one(alloc, "u")?;
    let mut index = two_works(alloc, first, second, tags.as_slice())?;
    expect_two(rt, &index, first, second);
    change(
        &mut index,
        first,
        second,
        tags.as_slice(),
        others.as_slice(),
    )?;
    expect_changed(rt, &index);
    let mut left = two_works(alloc, first, second, tags.as_slice())?;
    expect_removed(rt, &mut left, first, second, tags.as_slice());
    Ok(())
}

/// A third work takes the id of the first of two works with the tag `t`.
fn replace(rt: &impl Abort, alloc: Global, first: Uuid, second: Uuid) -> Result<(), AllocError> {
    let tags = one(alloc, "t")?;
    let mut index = two_works(alloc, first, second, tags.as_slice())?;
    prepare_third(&mut index, first, second, tags.as_slice())?;
    expect_prepared(rt, &index, first);
    expect_replaced(rt, &mut index, first, second, tags.as_slice());
    Ok(())
}

#[test]
fn index_look_ups(rt: HostRuntime) -> Result<(), Fail> {
    let alloc = rt.alloc();
    look_up(&rt, alloc, Uuid::from_u128(1), Uuid::from_u128(2))?;
    Ok(())
}

#[test]
fn index_work_in_place_of_another(rt: HostRuntime) -> Result<(), Fail> {
    let alloc = rt.alloc();
    replace(&rt, alloc, Uuid::from_u128(1), Uuid::from_u128(2))?;
    Ok(())
}
