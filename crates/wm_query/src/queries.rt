//! Which works a query asks for.
ghost use Rattle.std.specs.List.{list_any};
ghost use Rattle.std.specs.Prelude.{◌≡◌, ◌&&◌, filter, IfOk};
ghost use Rattle.std.specs.Str.{bytes_eq};
ghost use Rattle.wm_machine.specs.Queried.{any_or_empty, has_tag, is_state, matches};
ghost use Rattle.wm_machine.specs.Group.{is_name};
ghost use Rattle.wm_machine.specs.Shown.{info_in};

use std::alloc::{AllocError, Global};
use uuid::Uuid;
use wm_collections::{Items, Replica, Text};
use wm_machine::{Record, Shown, WorkInfo, WorkQuery};

/// Whether this id is one of those asked for, or none is.
#[tactic(auto, using(crate::proofs::Groups::any_or_empty_is))]
fn any_id(asked: &[Uuid], id: Uuid) -> bool
    ensures { result ≡ any_or_empty (λ one. bytes_eq id one) asked.now }
{
    asked.is_empty() || asked.iter().any(|one| id == *one)
}

/// Whether a unique name, where there is one, is this.
pub fn is_name(name: &Text, own: &Option<Text>) -> bool
    ensures { result ≡ is_name name.now own.now }
{
    match own {
        Some(own) => *own == *name,
        None => false,
    }
}

/// Whether the name that a work has is one of those asked for, or none is.
#[tactic(auto, using(crate::proofs::Groups::any_or_empty_is))]
fn any_name(asked: &[Text], name: &Option<Text>) -> bool
    ensures { result ≡ any_or_empty (λ one. is_name one name.now) asked.now }
{
    asked.is_empty() || asked.iter().any(|one| is_name(one, name))
}

/// Whether two shown states are the same.
fn is_state(state: Shown, other: Shown) -> bool
    ensures { result ≡ is_state state other }
{
    state == other
}

/// Whether this shown state is one of those asked for, or none is.
#[tactic(auto, using(crate::proofs::Groups::any_or_empty_is))]
fn any_state(asked: &[Shown], state: Shown) -> bool
    ensures { result ≡ any_or_empty (is_state state) asked.now }
{
    asked.is_empty() || asked.iter().any(|one| is_state(state, *one))
}

/// Whether a tag is one of these.
pub fn has_tag(tags: &[Text], tag: &Text) -> bool
    ensures { result ≡ has_tag tags.now tag.now }
{
    tags.iter().any(|own| *own == *tag)
}

/// Whether one of these tags is among those asked for, or none is asked for.
#[tactic(auto, using(crate::proofs::Groups::any_or_empty_is))]
fn any_tag(asked: &[Text], tags: &[Text]) -> bool
    ensures { result ≡ any_or_empty (has_tag tags.now) asked.now }
{
    asked.is_empty() || asked.iter().any(|tag| has_tag(tags, tag))
}

/// Whether a work of this id, name, shown state and tags has one of each group that a query names.
fn matches_parts(
    query: &WorkQuery,
    id: Uuid,
    name: &Option<Text>,
    state: Shown,
    tags: &[Text],
) -> bool
    ensures { result ≡ (any_or_empty (λ one. bytes_eq id one) query.now.ids
        && any_or_empty (λ one. is_name one name.now) query.now.names
        && any_or_empty (is_state state) query.now.states
        && any_or_empty (has_tag tags.now) query.now.tags) }
{
    any_id(query.ids.as_slice(), id)
        && any_name(query.names.as_slice(), name)
        && any_state(query.states.as_slice(), state)
        && any_tag(query.tags.as_slice(), tags)
}

/// Whether a work, by what is told of it, has one of each group that a query names. It takes no
/// memory.
#[tactic(auto, unfolding(wm_machine::specs::Queried::matches))]
pub fn matches(query: &WorkQuery, info: &WorkInfo) -> bool
    ensures { result ≡ matches query.now info.now }
{
    matches_parts(query, info.id, &info.name, info.state, info.tags.as_slice())
}

/// Whether a work in this shown state has one of each group that a query names. It takes no memory.
#[tactic(auto, unfolding(wm_machine::specs::Queried::matches))]
pub fn matches_work(query: &WorkQuery, work: &Record, state: Shown) -> bool
    ensures { result ≡ matches query.now (info_in work.now state) }
{
    let tags = work.request.tags().as_slice();
    matches_parts(query, work.request.id(), &work.name, state, tags)
}

/// Those of what is told of works that a query asks for, in their order. Memory that is refused is
/// the only error.
pub fn answer(
    alloc: Global,
    query: &WorkQuery,
    infos: &[WorkInfo],
) -> Result<Items<WorkInfo>, AllocError>
    ensures { IfOk result (λ kept. kept ≡ filter (matches query.entry.now) infos.entry.now) }
{
    let mut kept = Items::new(alloc);
    for info in infos {
        if matches(query, info) {
            kept.push(info.replica(alloc)?)?;
        }
    }
    Ok(kept)
}
