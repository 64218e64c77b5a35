//! Which constraints the conditions meet, and how that changes with the conditions.
ghost use Rattle.std.specs.Prelude.{◌≡◌};
ghost use Rattle.wm_conditions.specs.Signatures.{AreFallen, AreMet, AreRisen};

use crate::conditions::Conditions;
use crate::meeting::met;
use crate::signing::constraints_of;
use std::marker::Model;

/// The constraints that are met since a change of the conditions and weren't before, and those that
/// were and aren't any more, each as the bit at its signature.
#[derive(Clone, Copy, Debug, PartialEq, Eq)]
pub struct Changed {
    pub rose: u128,
    pub fell: u128,
}

/// The conditions, and the constraints that they meet. A contract sees it as the conditions.
#[derive(Debug, Drop)]
pub struct Tracker {
    conditions: Conditions,
    met: u128,
}

impl Model for Tracker {
    ghost use Rattle.wm_conditions.specs.Signatures.{AreMet};
    ghost use Rattle.wm_conditions.specs.declared.conditions.Conditions.{Conditions};

    ghost Value = { Conditions };

    ghost view = { λ t. t.conditions };

    ghost invariant = { λ t. AreMet t.conditions t.met };
}

/// The bit at the signature of each of the constraints that conditions meet.
fn bits_of(conditions: &Conditions) -> u128
    ensures { AreMet conditions.now result }
{
    let mut bits: u128 = 0;
    for number in 0..80 {
        if met(&constraints_of(number), conditions) {
            bits |= 1u128 << number;
        }
    }
    bits
}

impl Tracker {
    /// The constraints that these conditions meet. It takes no memory.
    pub fn new(conditions: Conditions) -> Tracker
        ensures { result ≡ conditions }
    {
        let met = bits_of(&conditions);
        Tracker { conditions, met }
    }

    /// The bit at the signature of each of the constraints that are met. It takes no memory.
    pub fn met(&self) -> u128
        ensures { AreMet self.now result }
    {
        self.met
    }

    /// The bit at the signature of each of the constraints that these conditions meet. Where they are
    /// the same as before, nothing is reckoned.
    fn met_under(&self, next: &Conditions) -> u128
        ensures { AreMet next.now result }
    {
        if *next == self.conditions {
            self.met
        } else {
            bits_of(next)
        }
    }

    /// Takes the next conditions, and tells for which constraints they make a difference. It takes
    /// no memory.
    pub fn update(&mut self, next: Conditions) -> Changed
        ensures conditions { self.new ≡ next }
        ensures rose { AreRisen self.old next result.rose }
        ensures fell { AreFallen self.old next result.fell }
    {
        let met = self.met_under(&next);
        let changed = Changed {
            rose: met & !self.met,
            fell: self.met & !met,
        };
        self.conditions = next;
        self.met = met;
        changed
    }
}
