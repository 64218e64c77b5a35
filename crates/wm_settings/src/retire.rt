//! A class of workers is retired.
ghost use Rattle.std.specs.Prelude.{◌≡◌, ◌≤◌, count_by, length, IfOk};
ghost use Rattle.wm_settings.specs.Builds.{IsExecuted};
ghost use Rattle.wm_machine.specs.First.{is_idle};

use crate::changes::{replying, setting};
use std::alloc::{AllocError, Global};
use wm_changes::{SettingChange, StepChange};
use wm_collections::{Replica, Text};
use wm_machine::{Command, Instance, Refusal, Reply, is_idle, is_live};
use wm_steps::View;

/// What a retire comes to: its class has to be live, and the reply counts the instances of it that
/// are idle.
pub fn execute(alloc: Global, view: &View, line: u32, class: Text) -> Result<StepChange, AllocError>
    ensures { IfOk result (IsExecuted view.entry.now line (Command.Retire class)) }
{
    let instances = view.state.instances.as_slice();
    if !is_live(instances, class.as_str()) {
        let reply = Reply::Refused(Refusal::NoSuchClass);
        return replying(alloc, view, line, Command::Retire(class), reply);
    }
    let reply = Reply::Retired(count_idle(instances, class.as_str()));
    let to = SettingChange::Retire(class.replica(alloc)?);
    setting(alloc, view, line, Command::Retire(class), reply, to)
}

/// How many instances of a class are idle.
fn count_idle(instances: &[Instance], class: &str) -> u32
    requires { length instances.now ≤ 10000 }
    ensures { result ≡ count_by (is_idle class.now) instances.now }
{
    let mut count = 0;
    for instance in instances {
        if is_idle(instance, class) {
            count += 1;
        }
    }
    count
}
