//! The groups of works by their texts, each text of which some work has.
ghost use Rattle.std.specs.Prelude.{◌≡◌, OnOk};
ghost use Rattle.std.specs.Str.{bytes_eq};
ghost use Rattle.wm_collections.specs.Lists.{NumbersAscend};
ghost use Rattle.wm_index.specs.Entries.{has_tag};
ghost use Rattle.wm_index.specs.Groups.{has, is_just, numbers_at, IsJoined, IsParted, KeepsOthers};

use crate::group::Group;
use std::alloc::{AllocError, Global};
use std::collections::BTreeMap;
use wm_collections::Text;

/// The groups by their texts. A text that no work has any more has no group.
pub type Groups = BTreeMap<String, Group>;

/// The numbers of the works of a text, ascending. It takes no memory.
pub fn numbers_at<'a>(groups: &'a Groups, text: &str) -> &'a [u64]
    ensures numbers { result.now ≡ numbers_at groups.now text.now }
    ensures ascending { NumbersAscend result.now }
{
    match groups.get(text) {
        Some(group) => group.as_slice(),
        None => &[],
    }
}

/// Adds a work to the group of a text. Where memory is refused, the groups are as they were.
pub fn join(alloc: Global, groups: &mut Groups, text: &str, seq: u64) -> Result<(), AllocError>
    ensures ok { OnOk result (IsJoined (bytes_eq text.now) seq (has groups.old) (has groups.new)) }
    ensures others { KeepsOthers (bytes_eq text.now) seq (has groups.old) (has groups.new) }
{
    if let Some(group) = groups.get_mut(text) {
        return group.insert(seq);
    }
    let group = Group::of_one(alloc, seq)?;
    groups.insert(String::from_str(alloc, text)?, group)?;
    Ok(())
}

/// Whether this is the only work of a text.
fn is_alone(groups: &Groups, text: &str, seq: u64) -> bool
    ensures { result ≡ is_just seq (numbers_at groups.now text.now) }
{
    match groups.get(text) {
        Some(group) => group.is_just(seq),
        None => false,
    }
}

/// Takes a work out of the group of a text, and the group with it where no other has the text. It
/// takes no memory.
pub fn leave(groups: &mut Groups, text: &str, seq: u64)
    ensures { IsParted (bytes_eq text.now) seq (has groups.old) (has groups.new) }
{
    if is_alone(groups, text, seq) {
        groups.remove(text);
        return;
    }
    if let Some(group) = groups.get_mut(text) {
        group.remove(seq);
    }
}

/// Adds a work to the groups of texts. Where memory is refused, it may be in some of them.
pub fn join_each(
    alloc: Global,
    groups: &mut Groups,
    texts: &[Text],
    seq: u64,
) -> Result<(), AllocError>
    ensures ok { OnOk result (IsJoined (has_tag texts.now) seq (has groups.old) (has groups.new)) }
    ensures others { KeepsOthers (has_tag texts.now) seq (has groups.old) (has groups.new) }
{
    for text in texts {
        join(alloc, groups, text.as_str(), seq)?;
    }
    Ok(())
}

/// Takes a work out of the groups of texts.
pub fn leave_each(groups: &mut Groups, texts: &[Text], seq: u64)
    ensures { IsParted (has_tag texts.now) seq (has groups.old) (has groups.new) }
{
    for text in texts {
        leave(groups, text.as_str(), seq);
    }
}
