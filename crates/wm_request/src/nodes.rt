//! Looking at the works of a batch, and for an id.
ghost use Rattle.std.specs.List.{list_any};
ghost use Rattle.std.specs.Prelude.{◌≡◌};
ghost use Rattle.std.specs.Str.{bytes_eq};
ghost use Rattle.wm_request.specs.Batches.{has_id, is_periodic};

use crate::request::Node;
use uuid::Uuid;

impl Node {
    /// Whether the work is periodic.
    pub fn is_periodic(&self) -> bool
        ensures { result ≡ is_periodic self.now }
    {
        self.request.period().is_some()
    }
}

/// Whether an id is one of these.
pub fn has_id(ids: &[Uuid], id: Uuid) -> bool
    ensures { result ≡ has_id ids.now id }
{
    ids.iter().any(|one| *one == id)
}

/// Whether one of these works has the id.
pub fn has_work(works: &[Node], id: Uuid) -> bool
    ensures { result ≡ list_any (λ work. bytes_eq work.request.id id) works.now }
{
    works.iter().any(|work| work.request.id() == id)
}
