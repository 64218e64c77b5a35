//! What is told of works, as rows give it, and which works match a query, of `wm_query`.

use crate::names::shown_named;
use case_files::fields::{
    RowFault, both, count, data, field, has_only, id, items, list, name, number, number_if,
};
use part_calls::told::list as list_told;
use serde_json::Value;
use std::alloc::{AllocError, Global};
use uuid::Uuid;
use wm_collections::{Items, Text};
use wm_data::Data;
use wm_machine::{Shown, WorkInfo, WorkQuery};
use wm_query::{answer, matches};

/// The plain fields of what is told of a work.
#[derive(Clone, Copy)]
struct Plain {
    seq: u64,
    id: Uuid,
    state: Shown,
    attempt: u32,
    due: Option<u64>,
    generation: u64,
}

fn plain_of(form: &Value) -> Result<Plain, RowFault> {
    Ok(Plain {
        seq: number(form, "seq")?,
        id: id(form, "id")?,
        state: state(field(form, "state")?)?,
        attempt: count(form, "attempt")?,
        due: number_if(form, "due")?,
        generation: number(form, "generation")?,
    })
}

/// The unique name and the tags.
fn texts_of(alloc: Global, form: &Value) -> Result<(Option<Text>, Items<Text>), RowFault> {
    both(name(alloc, form)?, list(alloc, form, "tags"))
}

/// The output and the progress.
fn data_of(alloc: Global, form: &Value) -> Result<(Data, Data), RowFault> {
    both(data(alloc, form, "output")?, data(alloc, form, "progress"))
}

fn info_of(plain: Plain, texts: (Option<Text>, Items<Text>), data: (Data, Data)) -> WorkInfo {
    let ((name, tags), (output, progress)) = (texts, data);
    WorkInfo {
        seq: plain.seq,
        id: plain.id,
        name,
        state: plain.state,
        attempt: plain.attempt,
        due: plain.due,
        generation: plain.generation,
        output,
        progress,
        tags,
    }
}

/// What is told of a work.
pub fn info(alloc: Global, form: &Value) -> Result<WorkInfo, RowFault> {
    let plain = plain_of(form)?;
    let texts = texts_of(alloc, form)?;
    let (texts, data) = both(texts, data_of(alloc, form))?;
    Ok(info_of(plain, texts, data))
}

/// What is told of works.
pub fn infos(alloc: Global, row: &Value) -> Result<Items<WorkInfo>, RowFault> {
    let mut infos = Items::new(alloc);
    for form in items(row, "works")? {
        infos.push(info(alloc, form)?)?;
    }
    Ok(infos)
}

/// A shown state.
fn state(value: &Value) -> Result<Shown, RowFault> {
    match value.as_str() {
        Some(name) => shown_named(name).ok_or(RowFault::Value),
        None => Err(RowFault::Value),
    }
}

/// The shown states that are asked for.
fn states(alloc: Global, form: &Value) -> Result<Items<Shown>, RowFault> {
    let mut states = Items::new(alloc);
    for item in items(form, "states")? {
        states.push(state(item)?)?;
    }
    Ok(states)
}

/// The ids and the unique names that are asked for.
fn asked_names(alloc: Global, form: &Value) -> Result<(Items<Uuid>, Items<Text>), RowFault> {
    both(list(alloc, form, "ids")?, list(alloc, form, "names"))
}

/// The shown states and the tags that are asked for.
fn asked_states(alloc: Global, form: &Value) -> Result<(Items<Shown>, Items<Text>), RowFault> {
    both(states(alloc, form)?, list(alloc, form, "tags"))
}

/// The query that a value says.
pub fn query(alloc: Global, form: &Value) -> Result<WorkQuery, RowFault> {
    let names = asked_names(alloc, form)?;
    let (names, states) = both(names, asked_states(alloc, form))?;
    let ((ids, names), (states, tags)) = (names, states);
    Ok(WorkQuery {
        ids,
        names,
        states,
        tags,
    })
}

/// The numbers of works.
fn numbers(alloc: Global, infos: &[WorkInfo]) -> Result<Value, AllocError> {
    let mut numbers = Items::new(alloc);
    for info in infos {
        numbers.push(info.seq)?;
    }
    list_told(alloc, numbers.as_slice())
}

/// The query of a row, and what is told of its works.
fn asked(alloc: Global, row: &Value) -> Result<(WorkQuery, Items<WorkInfo>), RowFault> {
    has_only(row, &["works", "query"])?;
    both(query(alloc, field(row, "query")?)?, infos(alloc, row))
}

/// The numbers of the works that a query is answered.
pub fn answered(alloc: Global, row: &Value) -> Result<Value, RowFault> {
    let (query, infos) = asked(alloc, row)?;
    let kept = answer(alloc, &query, infos.as_slice())?;
    Ok(numbers(alloc, kept.as_slice())?)
}

/// The numbers of the works that match a query, each by itself.
pub fn matched(alloc: Global, row: &Value) -> Result<Value, RowFault> {
    let (query, infos) = asked(alloc, row)?;
    let mut numbers = Items::new(alloc);
    for info in infos.as_slice() {
        if matches(&query, info) {
            numbers.push(info.seq)?;
        }
    }
    Ok(list_told(alloc, numbers.as_slice())?)
}
