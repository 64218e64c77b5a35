//! Whether the works of a batch may be enqueued, and what comes of those that have its unique name:
//! the plan of a policy, and the checks of an enqueue, in their order, over the records that are
//! named alone.
//!
//! What a policy does is of the guide's page "Managing work" (unique work), after
//! `androidx.work.ExistingWorkPolicy` and `ExistingPeriodicWorkPolicy`; that work comes after work,
//! and what is periodic stands alone, is of its page "Chaining work". The checks and their order are
//! this project's own choice.
#![tactic(auto)]

mod checks;
mod kinds;
mod members;
mod named;
mod plans;

pub use checks::check;
pub use members::unfinished;
pub use named::ids_named_by;
pub use plans::{GroupPlan, PlanFault, plan};
