//! Which of some nodes no other of them has as a prerequisite.
ghost use Rattle.std.specs.Prelude.{◌≡◌, ◌&&◌, ℕ, not};
ghost use Rattle.std.specs.List.{list_any};
ghost use Rattle.wm_collections.specs.Lists.{is_among};
ghost use Rattle.wm_collections.specs.Sets.{has_number};
ghost use Rattle.wm_graph.specs.Kept.{nodes_of};
ghost use Rattle.wm_graph.specs.Leaves.{is_before_any};

use crate::node::{Node, before_of};
use std::collections::{BTreeMap, BTreeSet};

/// Takes these numbers out of a set.
fn drop_each(numbers: &mut BTreeSet<u64>, others: &[u64])
    ensures { (number : ℕ) → has_number numbers.new number
        ≡ (has_number numbers.old number && not (is_among others.now number)) }
{
    for other in others {
        numbers.remove(other);
    }
}

/// Takes the prerequisites of these nodes out of a set.
pub fn drop_needed(numbers: &mut BTreeSet<u64>, nodes: &BTreeMap<u64, Node>, among: &[u64])
    ensures { (number : ℕ) → has_number numbers.new number
        ≡ (has_number numbers.old number && not (is_before_any (nodes_of nodes.now.entries) among.now number)) }
{
    for seq in among {
        drop_each(numbers, before_of(nodes, *seq));
    }
}
