//! What a keeper over a store in memory holds after its commits.
ghost use Rattle.std.specs.Prelude.{◌≡◌, ◌-◌, ◌^◌, pos, negsuc, IfOk};
ghost use Rattle.wm_keeper.specs.Keeper.{AreOfDifferentNumbers, changed_number};

use sqlite::{Connection, MemStore};
use std::alloc::{AllocError, Global};
use std::test::Fail;
use wm_collections::{Items, Text};
use wm_keeper::{Change, KeepFault, Keeper, Row};
use wm_sqlite::SqliteKeeper;

/// A text with characters that JSON or SQL spells in ways of their own.
const STRANGE: &str = "\0'\"\\\n\u{7f}é\u{10ffff}";

/// The texts of a row.
#[derive(Drop)]
struct Texts {
    name: Option<Text>,
    class: Text,
    input: Text,
    output: Text,
}

/// The lists of a row.
#[derive(Drop)]
struct Lists {
    id: Items<u8>,
    prior: Items<i64>,
    tags: Items<Text>,
}

/// No name, and texts without a letter.
fn no_texts(alloc: Global) -> Texts {
    Texts {
        name: None,
        class: Text::from_string(String::new(alloc)),
        input: Text::from_string(String::new(alloc)),
        output: Text::from_string(String::new(alloc)),
    }
}

/// Empty lists.
fn no_lists(alloc: Global) -> Lists {
    Lists {
        id: Items::new(alloc),
        prior: Items::new(alloc),
        tags: Items::new(alloc),
    }
}

/// Texts that are all this one.
fn texts_of(alloc: Global, text: &str) -> Result<Texts, AllocError> {
    Ok(Texts {
        name: Some(Text::from_str(alloc, text)?),
        class: Text::from_str(alloc, text)?,
        input: Text::from_str(alloc, text)?,
        output: Text::from_str(alloc, text)?,
    })
}

/// Lists of the bytes of a text, of numbers at both ends, and of the text and an empty one.
fn lists_of(alloc: Global, text: &str) -> Result<Lists, AllocError> {
    let id = Vec::from_slice(alloc, text.as_bytes())?;
    let prior = vec![in alloc; i64::MIN, -1, 0, 1, i64::MAX]?;
    let tags = vec![in alloc; Text::from_str(alloc, text)?, Text::from_str(alloc, "")?]?;
    Ok(Lists {
        id: Items::from_vec(id),
        prior: Items::from_vec(prior),
        tags: Items::from_vec(tags),
    })
}

/// The row of this number with these texts and lists, and with another number in each other column
/// of numbers.
fn row_of(seq: i64, number: i64, texts: Texts, lists: Lists) -> Row
    ensures { result.seq ≡ seq }
{
    Row {
        version: number,
        seq,
        id: lists.id,
        name: texts.name,
        class: texts.class,
        kind: number,
        period: number,
        flex: number,
        delay: number,
        policy: number,
        wait: number,
        merger: number,
        network: number,
        flags: number,
        phase: number,
        attempt: number,
        backoff_n: number,
        runs: number,
        generation: number,
        enqueued_at: number,
        input: texts.input,
        output: texts.output,
        prior: lists.prior,
        tags: lists.tags,
        next_at: number,
        keep_for: number,
        finished_at: number,
    }
}

/// The row of the least number, with the greatest one in each other column, and nothing else.
fn first_row(alloc: Global) -> Row
    ensures { result.seq ≡ negsuc (2 ^ 63 - 1) }
{
    row_of(i64::MIN, i64::MAX, no_texts(alloc), no_lists(alloc))
}

/// The row of the greatest number, with the least one in each other column, and strange texts.
fn last_row(alloc: Global) -> Result<Row, AllocError>
    ensures { IfOk result (λ row. row.seq ≡ pos (2 ^ 63 - 1)) }
{
    let texts = texts_of(alloc, STRANGE)?;
    let lists = lists_of(alloc, STRANGE)?;
    Ok(row_of(i64::MAX, i64::MIN, texts, lists))
}

/// Puts of both, the last one first.
fn puts_at_the_ends(alloc: Global) -> Result<Vec<Change>, AllocError>
    ensures { IfOk result (λ changes. AreOfDifferentNumbers changes.items) }
{
    let last = last_row(alloc)?;
    Ok(vec![in alloc; Change::Put(last), Change::Put(first_row(alloc))]?)
}

/// Whether these rows are both, the first one first.
fn are_at_the_ends(alloc: Global, rows: &[Row]) -> Result<bool, AllocError> {
    let first = first_row(alloc);
    let last = last_row(alloc)?;
    match rows {
        [one, other] => Ok(*one == first && *other == last),
        _ => Ok(false),
    }
}

/// Commits changes.
pub(crate) fn commit<K: Keeper>(keeper: &mut K, changes: Vec<Change>) -> Result<(), KeepFault>
    requires { AreOfDifferentNumbers changes.items }
{
    keeper.commit(changes.as_slice())
}

/// A keeper over a new store in memory.
fn new_keeper(alloc: Global) -> Result<SqliteKeeper<MemStore>, AllocError> {
    Ok(SqliteKeeper::adopt(Connection::open_in_memory(alloc)?))
}

#[test]
fn rows_at_the_ends_of_each_column_come_back(rt: HostRuntime) -> Result<(), Fail> {
    let alloc = rt.alloc();
    let mut keeper = new_keeper(alloc)?;
    commit(&mut keeper, puts_at_the_ends(alloc)?)?;
    let rows = keeper.load("any name")?;
    assert!(rt; are_at_the_ends(alloc, rows.as_slice())?);
    Ok(())
}

/// A change of one row: the row of this number is put with an attempt, or removed with none.
fn change(alloc: Global, seq: i64, attempt: Option<i64>) -> Change
    ensures { changed_number result ≡ seq }
{
    match attempt {
        Some(attempt) => Change::Put(row_of(seq, attempt, no_texts(alloc), no_lists(alloc))),
        None => Change::Remove(seq),
    }
}

/// Makes one change, as `change` has it.
pub(crate) fn change_one<K: Keeper>(
    alloc: Global,
    keeper: &mut K,
    seq: i64,
    attempt: Option<i64>,
) -> Result<(), KeepFault> {
    commit(keeper, one(alloc, change(alloc, seq, attempt))?)
}

/// One change.
pub(crate) fn one(alloc: Global, change: Change) -> Result<Vec<Change>, AllocError>
    ensures { IfOk result (λ changes. AreOfDifferentNumbers changes.items) }
{
    Ok(vec![in alloc; change]?)
}

/// A put of row 7 with attempt 2, and a removal of row 5.
fn put_and_removal(alloc: Global) -> Result<Vec<Change>, AllocError>
    ensures { IfOk result (λ changes. AreOfDifferentNumbers changes.items) }
{
    let put = change(alloc, 7, Some(2));
    Ok(vec![in alloc; put, change(alloc, 5, None)]?)
}

/// Makes both in one commit.
pub(crate) fn put_and_remove<K: Keeper>(alloc: Global, keeper: &mut K) -> Result<(), KeepFault> {
    commit(keeper, put_and_removal(alloc)?)
}

/// The numbers and the attempts of rows.
fn numbers_of(alloc: Global, rows: &[Row]) -> Result<Vec<(i64, i64)>, AllocError> {
    let mut numbers = Vec::new(alloc);
    for row in rows {
        numbers.push((row.seq, row.attempt))?;
    }
    Ok(numbers)
}

/// The numbers and the attempts of the rows that a keeper loads.
pub(crate) fn loaded<K: Keeper>(
    alloc: Global,
    keeper: &mut K,
    name: &str,
) -> Result<Vec<(i64, i64)>, KeepFault> {
    let rows = keeper.load(name)?;
    Ok(numbers_of(alloc, rows.as_slice())?)
}

#[test]
fn rows_are_put_and_removed(rt: HostRuntime) -> Result<(), Fail> {
    let alloc = rt.alloc();
    let mut keeper = new_keeper(alloc)?;
    let steps: [(i64, Option<i64>, &[(i64, i64)]); 7] = [
        (1, None, &[]),
        (5, Some(0), &[(5, 0)]),
        (9, Some(0), &[(5, 0), (9, 0)]),
        (-7, Some(0), &[(-7, 0), (5, 0), (9, 0)]),
        (5, Some(1), &[(-7, 0), (5, 1), (9, 0)]),
        (8, None, &[(-7, 0), (5, 1), (9, 0)]),
        (-7, None, &[(5, 1), (9, 0)]),
    ];
    for (seq, attempt, expected) in steps {
        change_one(alloc, &mut keeper, seq, attempt)?;
        let rows = loaded(alloc, &mut keeper, "any name")?;
        assert_eq!(rt; rows.as_slice(), expected, "after {seq}");
    }
    put_and_remove(alloc, &mut keeper)?;
    let rows = loaded(alloc, &mut keeper, "any name")?;
    assert_eq!(rt; rows.as_slice(), [(7, 2), (9, 0)].as_slice());
    Ok(())
}
