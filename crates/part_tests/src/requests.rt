//! Requests whose limits a test has a proof of.
ghost use Rattle.std.specs.Prelude.{◌≡◌, Ok, IfOk};
ghost use Rattle.wm_request.specs.Requests.{IsRequest};

use std::alloc::AllocError;
use wm_request::{Request, RequestFault};

/// A request that was built, which is within its limits.
pub fn within(request: Result<Request, RequestFault>) -> Result<Request, AllocError>
    ensures { IfOk result (λ built. (request ≡ Ok built) × IsRequest built) }
{
    match request {
        Ok(request) => {
            request.show_limits();
            Ok(request)
        }
        Err(_) => Err(AllocError),
    }
}
