//! The command that retires a class of workers.
ghost use Rattle.std.specs.Prelude.{◌≡◌, ◌≤◌, count_by, length};
ghost use Rattle.wm_machine.specs.First.{is_idle};
ghost use Rattle.wm_machine.specs.Retired.{retired};
ghost use Rattle.wm_machine.specs.Valid.{Valid};

use std::alloc::Global;
use wm_collections::Text;
use wm_lifecycle::retire_each;
use wm_machine::{Instance, Refusal, Reply, State, is_idle, is_live};

/// The command that retires the instances of a class, and counts those that are idle. A class that
/// isn't live is refused. It takes no memory.
pub fn retire(alloc: Global, state: &mut State, class: &Text) -> Reply
    requires valid { Valid state.old }
    ensures { retired state.old class.entry.now ≡ record { reply = result; state = state.new } }
{
    let instances = state.instances.as_slice();
    if !is_live(instances, class.as_str()) {
        return Reply::Refused(Refusal::NoSuchClass);
    }
    let count = count_idle(instances, class.as_str());
    retire_each(alloc, &mut state.instances, class);
    Reply::Retired(count)
}

/// How many instances of a class are idle.
fn count_idle(instances: &[Instance], class: &str) -> u32
    requires { length instances.now ≤ 10000 }
    ensures { result ≡ count_by (is_idle class.now) instances.now }
{
    let mut count = 0;
    for instance in instances {
        if is_idle(instance, class) {
            count += 1;
        }
    }
    count
}
