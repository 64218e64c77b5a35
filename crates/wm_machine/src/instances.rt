//! Which workers a class has.
ghost use Rattle.std.specs.Option.{option_copied};
ghost use Rattle.std.specs.Prelude.{◌≡◌};
ghost use Rattle.wm_machine.specs.First.{has_room, idle_instance, is_idle, is_live};

use crate::state::Instance;

/// Whether some instance of the class isn't retired.
#[tactic(auto, unfolding(crate::specs::First::is_live))]
pub fn is_live(instances: &[Instance], class: &str) -> bool
    ensures { result ≡ is_live instances.now class.now }
{
    instances.iter().any(|instance| instance.class.as_str() == class && !instance.retired)
}

/// Whether an instance of the class is neither out nor retired.
pub fn is_idle(instance: &Instance, class: &str) -> bool
    ensures { result ≡ is_idle class.now instance.now }
{
    instance.class.as_str() == class && !instance.out && !instance.retired
}

/// The idle instance of a class with the least number.
#[tactic(auto, unfolding(crate::specs::First::idle_instance))]
pub fn idle_in<'a>(instances: &'a [Instance], class: &str) -> Option<&'a Instance>
    ensures { option_copied result ≡ idle_instance instances.now class.now }
{
    instances.iter().find(|instance| is_idle(instance, class))
}

/// Whether a class has an idle instance, or no worker at all.
pub fn has_room(instances: &[Instance], class: &str) -> bool
    ensures { result ≡ has_room instances.now class.now }
{
    idle_in(instances, class).is_some() || !is_live(instances, class)
}
