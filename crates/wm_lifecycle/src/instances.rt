//! The changes of the instances of a state: one is out or isn't, and those of a class retire.
ghost use Rattle.std.specs.Prelude.{◌≡◌};
ghost use Rattle.wm_machine.specs.Retired.{with_retired};
ghost use Rattle.wm_machine.specs.Runs.{with_out};
ghost use Rattle.wm_machine.specs.Valid.{AreNumberedInOrder};

use std::alloc::Global;
use std::mem;
use wm_collections::{Items, Text};
use wm_machine::Instance;

/// Has the instance of this number out or not. It takes no memory.
pub fn set_out(alloc: Global, instances: &mut Items<Instance>, number: u32, out: bool)
    requires { AreNumberedInOrder 0 instances.old }
    ensures { instances.new ≡ with_out out number instances.old }
{
    let mut elements = mem::replace(instances, Items::new(alloc)).into_vec();
    set_at_out(elements.as_mut_slice(), number, out);
    *instances = Items::from_vec(elements);
}

/// Has the instance of this number out or not, which stands at the number.
fn set_at_out(instances: &mut [Instance], number: u32, out: bool)
    requires { AreNumberedInOrder 0 instances.old }
    ensures { instances.new ≡ with_out out number instances.old }
{
    let index = number as usize;
    if index < instances.len() {
        instances[index].out = out;
    }
}

/// Has the instances of this class retired. It takes no memory.
pub fn retire_each(alloc: Global, instances: &mut Items<Instance>, class: &Text)
    ensures { instances.new ≡ with_retired class.now instances.old }
{
    let mut elements = mem::replace(instances, Items::new(alloc)).into_vec();
    set_each_retired(elements.as_mut_slice(), class);
    *instances = Items::from_vec(elements);
}

/// Has the instances of this class retired.
fn set_each_retired(instances: &mut [Instance], class: &Text)
    ensures { instances.new ≡ with_retired class.now instances.old }
{
    for instance in instances.iter_mut() {
        if instance.class == *class {
            instance.retired = true;
        }
    }
}
