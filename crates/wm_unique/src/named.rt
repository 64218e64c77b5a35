//! The ids that a batch names.
ghost use Rattle.std.specs.Prelude.{◌≡◌, ◌++◌, IfOk, OnOk};
ghost use Rattle.wm_unique.specs.Plans.{ids_named};

use std::alloc::{AllocError, Global};
use uuid::Uuid;
use wm_collections::Items;
use wm_request::Node;

/// The ids that a batch of these works names: that of each work, and those that it comes after.
/// Memory that is refused is the only error.
pub fn ids_named_by(alloc: Global, nodes: &[Node]) -> Result<Items<Uuid>, AllocError>
    ensures { IfOk result (λ ids. ids ≡ ids_named nodes.now) }
{
    let mut ids = Items::new(alloc);
    for node in nodes {
        ids.push(node.request.id())?;
        add_ids(&mut ids, node.after.as_slice())?;
    }
    Ok(ids)
}

/// Adds ids at the end.
fn add_ids(ids: &mut Items<Uuid>, others: &[Uuid]) -> Result<(), AllocError>
    ensures { OnOk result (ids.new ≡ ids.old ++ others.now) }
{
    for other in others {
        ids.push(*other)?;
    }
    Ok(())
}
