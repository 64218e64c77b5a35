//! The classes that have instances, by numbers, and which of them are busy: their works have to wait
//! for an instance.
ghost use Rattle.std.specs.Prelude.{◌≡◌, ◌≤◌, false, length, vec_capacity, IfOk};
ghost use Rattle.std.specs.List.{list_any, position};
ghost use Rattle.std.specs.Str.{bytes_eq};
ghost use Rattle.wm_steps.specs.Readied.{class_number, AreBusy, AreNamed};

use std::alloc::{AllocError, Global};
use wm_collections::{Items, Replica, Text};
use wm_machine::{Instance, has_room};

/// The number of a class: its place among these, and the number after them where it isn't one of
/// them. It takes no memory.
pub fn class_number(classes: &[Text], class: &Text) -> u32
    requires { length classes.now ≤ 10000 }
    ensures { result ≡ class_number classes.now class.now }
{
    match place_of(classes, class) {
        Some(place) => place as u32,
        None => classes.len() as u32,
    }
}

/// The place of a class among these.
fn place_of(classes: &[Text], class: &Text) -> Option<usize>
    ensures { result ≡ position (λ name. bytes_eq name class.now) classes.now }
{
    classes.iter().position(|name| *name == *class)
}

/// The classes of these instances, each once, in the order of their first instances. Memory that is
/// refused is the only error.
pub fn classes_of(alloc: Global, instances: &[Instance]) -> Result<Items<Text>, AllocError>
    ensures named { IfOk result (λ classes. AreNamed classes instances.now) }
    ensures few { IfOk result (λ classes. length classes ≤ length instances.now) }
{
    let mut classes = Items::new(alloc);
    for instance in instances {
        if !is_named(classes.as_slice(), &instance.class) {
            classes.push(instance.class.replica(alloc)?)?;
        }
    }
    Ok(classes)
}

/// Whether a class is one of these.
fn is_named(classes: &[Text], class: &Text) -> bool
    ensures { result ≡ list_any (λ name. bytes_eq name class.now) classes.now }
{
    classes.iter().any(|name| *name == *class)
}

/// Lists the numbers of the busy classes anew where instances were touched, since else they are those
/// of these instances already. There is room for all classes. It takes no memory.
pub fn relist_busy(busy: &mut Vec<u32>, classes: &[Text], instances: &[Instance], touched: bool)
    requires few { length classes.now ≤ 10000 }
    requires room { length classes.now ≤ vec_capacity busy.old }
    requires named { AreNamed classes.now instances.now }
    requires kept { touched ≡ false → AreBusy classes.now instances.now busy.old.items }
    ensures busy { AreBusy classes.now instances.now busy.new.items }
    ensures room { vec_capacity busy.new ≡ vec_capacity busy.old }
{
    if touched {
        list_busy(busy, classes, instances);
    }
}

/// Lists the numbers of the busy classes anew. There is room for all classes. It takes no memory.
pub fn list_busy(busy: &mut Vec<u32>, classes: &[Text], instances: &[Instance])
    requires few { length classes.now ≤ 10000 }
    requires room { length classes.now ≤ vec_capacity busy.old }
    requires named { AreNamed classes.now instances.now }
    ensures busy { AreBusy classes.now instances.now busy.new.items }
    ensures room { vec_capacity busy.new ≡ vec_capacity busy.old }
{
    busy.clear();
    let mut number = 0;
    for class in classes {
        if !has_room(instances, class.as_str()) {
            busy.push_reserved(number);
        }
        number += 1;
    }
}
