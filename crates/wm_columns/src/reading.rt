//! Rows as the tables show them, read.
ghost use Rattle.sqlite_rules.specs.Edit.{id_in};
ghost use Rattle.sqlite_trees.specs.View.{is_int};
ghost use Rattle.sqlite_value.specs.Order.{bytes, column};
ghost use Rattle.sqlite_value.specs.declared.value.Value.TheVariants.{Int};
ghost use Rattle.std.specs.List.{AllByRecursion};
ghost use Rattle.std.specs.Prelude.{◌≡◌, ◌≤◌, ◌+◌, ◌++◌, [], IfOk, IsTrue, OnOk, map, pos};
ghost use Rattle.wm_columns.specs.Columns.{prior_in, tags_in};
ghost use Rattle.wm_columns.specs.Values.{lists_of, row_of};
ghost use Rattle.wm_columns.specs.Values.{text_in};

use crate::columns::{prior_in, tags_in};
use sqlite::{Error, Row as ShownRow};
use std::alloc::Global;
use wm_collections::{Items, Text};
use wm_keeper::Row;

/// The numbers of a row that say what was asked for.
#[derive(Clone, Copy)]
struct Asked {
    kind: i64,
    period: i64,
    flex: i64,
    delay: i64,
    policy: i64,
    wait: i64,
    merger: i64,
    network: i64,
    flags: i64,
}

/// The numbers of a row that say how far the work has come.
#[derive(Clone, Copy)]
struct Standing {
    phase: i64,
    attempt: i64,
    backoff_n: i64,
    runs: i64,
    generation: i64,
    enqueued_at: i64,
}

/// The moments of a row that `work` doesn't have.
#[derive(Clone, Copy)]
struct Moments {
    next_at: i64,
    keep_for: i64,
    finished_at: i64,
}

/// The texts of a row.
#[derive(Drop)]
struct Texts {
    name: Option<Text>,
    class: Text,
    input: Text,
    output: Text,
}

/// The version of a row with its lists. Where a list can't be read, it is 0 and both are empty.
#[derive(Drop)]
struct Lists {
    version: i64,
    prior: Items<i64>,
    tags: Items<Text>,
}

/// The rows that two tables show by the values of their columns, those of the first before those of
/// the second. Fails where a value isn't of the type of its column, and where memory is refused.
pub fn rows_of(alloc: Global, first: &[ShownRow], second: &[ShownRow]) -> Result<Vec<Row>, Error>
    ensures rows { IfOk result (λ rows. rows.items ≡ map row_of first.now ++ map row_of second.now) }
    ensures first { OnOk result (AllByRecursion (λ values. IsTrue (is_int (column values 1))) first.now) }
    ensures second { OnOk result (AllByRecursion (λ values. IsTrue (is_int (column values 1))) second.now) }
{
    let mut rows = Vec::with_capacity(alloc, first.len().saturating_add(second.len()))?;
    add_rows(&mut rows, alloc, first)?;
    add_rows(&mut rows, alloc, second)?;
    Ok(rows)
}

/// Adds the rows that a table shows.
fn add_rows(rows: &mut Vec<Row>, alloc: Global, shown: &[ShownRow]) -> Result<(), Error>
    ensures rows { OnOk result (rows.new.items ≡ rows.old.items ++ map row_of shown.now) }
    ensures numbered { OnOk result (AllByRecursion (λ values. IsTrue (is_int (column values 1))) shown.now) }
{
    for row in shown {
        rows.push(row_of(alloc, row)?)?;
    }
    Ok(())
}

/// The row that a table shows.
fn row_of(alloc: Global, shown: &ShownRow) -> Result<Row, Error>
    ensures row { IfOk result (λ row. row ≡ row_of shown.now) }
    ensures numbered { OnOk result (IsTrue (is_int (column shown.now 1))) }
{
    let asked = asked_of(shown)?;
    let standing = standing_of(shown)?;
    let moments = moments_of(shown)?;
    let seq = number_at(shown, 1)?;
    let id = Items::from_vec(shown.get(2)?);
    let texts = texts_of(shown)?;
    let lists = lists_of(alloc, shown)?;
    Ok(Row {
        version: lists.version,
        seq,
        id,
        name: texts.name,
        class: texts.class,
        kind: asked.kind,
        period: asked.period,
        flex: asked.flex,
        delay: asked.delay,
        policy: asked.policy,
        wait: asked.wait,
        merger: asked.merger,
        network: asked.network,
        flags: asked.flags,
        phase: standing.phase,
        attempt: standing.attempt,
        backoff_n: standing.backoff_n,
        runs: standing.runs,
        generation: standing.generation,
        enqueued_at: standing.enqueued_at,
        input: texts.input,
        output: texts.output,
        prior: lists.prior,
        tags: lists.tags,
        next_at: moments.next_at,
        keep_for: moments.keep_for,
        finished_at: moments.finished_at,
    })
}

/// What was asked for.
fn asked_of(shown: &ShownRow) -> Result<Asked, Error>
    ensures { IfOk result (λ asked. asked ≡ record {
      kind = id_in (column shown.now 5);
      period = id_in (column shown.now 6);
      flex = id_in (column shown.now 7);
      delay = id_in (column shown.now 8);
      policy = id_in (column shown.now 9);
      wait = id_in (column shown.now 10);
      merger = id_in (column shown.now 11);
      network = id_in (column shown.now 12);
      flags = id_in (column shown.now 13);
    }) }
{
    let (kind, period, flex) = numbers_at(shown, 5)?;
    let (delay, policy, wait) = numbers_at(shown, 8)?;
    let (merger, network, flags) = numbers_at(shown, 11)?;
    Ok(Asked {
        kind,
        period,
        flex,
        delay,
        policy,
        wait,
        merger,
        network,
        flags,
    })
}

/// How far the work has come.
fn standing_of(shown: &ShownRow) -> Result<Standing, Error>
    ensures { IfOk result (λ standing. standing ≡ record {
      phase = id_in (column shown.now 14);
      attempt = id_in (column shown.now 15);
      backoff_n = id_in (column shown.now 16);
      runs = id_in (column shown.now 17);
      generation = id_in (column shown.now 18);
      enqueued_at = id_in (column shown.now 19);
    }) }
{
    let (phase, attempt, backoff_n) = numbers_at(shown, 14)?;
    let (runs, generation, enqueued_at) = numbers_at(shown, 17)?;
    Ok(Standing {
        phase,
        attempt,
        backoff_n,
        runs,
        generation,
        enqueued_at,
    })
}

/// The moments that `work` doesn't have.
fn moments_of(shown: &ShownRow) -> Result<Moments, Error>
    ensures { IfOk result (λ moments. moments ≡ record {
      next_at = id_in (column shown.now 24);
      keep_for = id_in (column shown.now 25);
      finished_at = id_in (column shown.now 26);
    }) }
{
    let (next_at, keep_for, finished_at) = numbers_at(shown, 24)?;
    Ok(Moments {
        next_at,
        keep_for,
        finished_at,
    })
}

/// The texts.
fn texts_of(shown: &ShownRow) -> Result<Texts, Error>
    ensures { IfOk result (λ texts. texts ≡ record {
      name = text_in (column shown.now 3);
      class = bytes (column shown.now 4);
      input = bytes (column shown.now 20);
      output = bytes (column shown.now 21);
    }) }
{
    Ok(Texts {
        name: name_of(shown)?,
        class: text_at(shown, 4)?,
        input: text_at(shown, 20)?,
        output: text_at(shown, 21)?,
    })
}

/// The name, if there is one.
fn name_of(shown: &ShownRow) -> Result<Option<Text>, Error>
    ensures { IfOk result (λ name. name ≡ text_in (column shown.now 3)) }
{
    let name: Option<String> = shown.get(3)?;
    Ok(name.map(Text::from_string))
}

/// The numbers in a column and the two after it.
fn numbers_at(shown: &ShownRow, at: usize) -> Result<(i64, i64, i64), Error>
    requires { at ≤ 24 }
    ensures { IfOk result (λ numbers. numbers
        ≡ (id_in (column shown.now at), id_in (column shown.now (at + 1)), id_in (column shown.now (at + 2)))) }
{
    Ok((
        number_at(shown, at)?,
        number_at(shown, at + 1)?,
        number_at(shown, at + 2)?,
    ))
}

/// The number in a column.
fn number_at(shown: &ShownRow, at: usize) -> Result<i64, Error>
    ensures { IfOk result (λ number. column shown.now at ≡ Int number) }
{
    shown.get(at)
}

/// The text in a column.
fn text_at(shown: &ShownRow, at: usize) -> Result<Text, Error>
    ensures { IfOk result (λ text. text ≡ bytes (column shown.now at)) }
{
    Ok(Text::from_string(shown.get(at)?))
}

/// The version and the lists.
fn lists_of(alloc: Global, shown: &ShownRow) -> Result<Lists, Error>
    ensures { IfOk result (λ lists. (lists.version, lists.prior, lists.tags)
        ≡ lists_of (id_in (column shown.now 0)) (prior_in (bytes (column shown.now 22))) (tags_in (bytes (column shown.now 23)))) }
{
    let version = number_at(shown, 0)?;
    let prior: Vec<u8> = shown.get(22)?;
    let tags: String = shown.get(23)?;
    let Some(prior) = prior_in(alloc, prior.as_slice())? else {
        return Ok(unread_lists(alloc));
    };
    let Some(tags) = tags_in(alloc, tags.as_str())? else {
        return Ok(unread_lists(alloc));
    };
    Ok(Lists {
        version,
        prior,
        tags,
    })
}

/// What stands for lists that can't be read.
fn unread_lists(alloc: Global) -> Lists
    ensures { result ≡ record { version = pos 0; prior = []; tags = [] } }
{
    Lists {
        version: 0,
        prior: Items::new(alloc),
        tags: Items::new(alloc),
    }
}
