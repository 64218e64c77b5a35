//! One place of a bench, and what taking, giving and retiring leave of it.
ghost use Rattle.std.specs.Prelude.{◌≡◌, ◌<◌, ◌≤◌, length, map, count_by, IfSome, IfNone};
ghost use Rattle.wm_bench.specs.Places.{IsAwayAt, changed_at, idle_at, is_idle_of, made_away, made_back, most_hands, retired_at};

use crate::hand::Hand;
use std::mem;
use wm_collections::Text;
use wm_worker::{Kind, Worker};

/// Whether the instance of a place is on the bench.
#[derive(Drop)]
pub enum Presence<B> {
    /// It is idle here.
    Idle(B),
    /// It is out with a seat. Its kind is known, and whether its class was retired meanwhile.
    Away { kind: Kind, retired: bool },
    /// It was dropped, since its class was retired. Its kind is known.
    Gone(Kind),
}

impl<B> Presence<B> {
    ghost use Rattle.wm_bench.specs.Places.{retired_in};

    /// Whether the class was retired.
    fn is_retired(&self) -> bool
        ensures { result ≡ retired_in self.now }
    {
        match self {
            Presence::Idle(_) => false,
            Presence::Away { retired, .. } => *retired,
            Presence::Gone(_) => true,
        }
    }
}

/// The place of an instance on a bench.
#[derive(Drop)]
pub struct Place<B> {
    /// The class of works that the instance is for.
    pub class: Text,
    pub presence: Presence<B>,
}

impl<B> Place<B> {
    ghost use Rattle.wm_bench.specs.Places.{place_of};

    /// The place of an instance that is idle.
    pub(crate) fn of(hand: Hand<B>) -> Place<B>
        ensures { result ≡ place_of hand }
    {
        let Hand { class, worker } = hand;
        Place {
            class,
            presence: Presence::Idle(worker),
        }
    }
}

impl<B: Drop> Place<B> {
    ghost use Rattle.wm_bench.specs.Places.{idle_hand};

    /// The hand of the instance, where it is idle here.
    pub(crate) fn into_hand(self) -> Option<Hand<B>>
        ensures { result ≡ idle_hand self }
    {
        let Place { class, presence } = self;
        match presence {
            Presence::Idle(worker) => Some(Hand { class, worker }),
            Presence::Away { .. } | Presence::Gone(_) => None,
        }
    }
}

impl<B: Worker> Place<B> {
    ghost use Rattle.wm_bench.specs.Places.{idle_worker, made_away, made_back};

    /// Takes the worker, where it is idle here.
    pub(crate) fn take(&mut self) -> Option<B>
        ensures worker { result ≡ idle_worker self.old }
        ensures place { self.new ≡ made_away B.kind_of self.old }
        ensures none { IfNone result (self.new ≡ self.old) }
    {
        let Presence::Idle(worker) = &self.presence else {
            return None;
        };
        let away = Presence::Away {
            kind: worker.kind(),
            retired: false,
        };
        match mem::replace(&mut self.presence, away) {
            Presence::Idle(worker) => Some(worker),
            Presence::Away { .. } | Presence::Gone(_) => unreachable!(),
        }
    }

    /// The worker comes back: it is idle here from now on, or dropped where the class was retired.
    pub(crate) fn give(&mut self, worker: B)
        ensures { self.new ≡ made_back B.kind_of worker self.old }
    {
        self.presence = if self.presence.is_retired() {
            Presence::Gone(worker.kind())
        } else {
            Presence::Idle(worker)
        };
    }

    /// Retires the class, where it is this one; whether a worker that was idle here was dropped.
    fn retire(&mut self, class: &str) -> bool
        ensures dropped { result ≡ is_idle_of class.now self.old }
        ensures place { self.new ≡ retired_at B.kind_of class.now self.old }
    {
        if self.class.as_str() != class {
            return false;
        }
        match &mut self.presence {
            Presence::Idle(worker) => {
                self.presence = Presence::Gone(worker.kind());
                true
            }
            Presence::Away { retired, .. } => {
                *retired = true;
                false
            }
            Presence::Gone(_) => false,
        }
    }
}

/// Takes the worker of the place of this number, where it is idle there.
pub(crate) fn take_at<B: Worker>(places: &mut [Place<B>], number: usize) -> Option<B>
    ensures worker { result ≡ idle_at number places.old }
    ensures places { places.new ≡ changed_at (made_away B.kind_of) number places.old }
    ensures none { IfNone result (places.new ≡ places.old) }
    ensures away { IfSome result (λ worker. IsAwayAt number (B.kind_of worker) places.new) }
{
    if number < places.len() {
        places[number].take()
    } else {
        None
    }
}

/// The worker comes back to the place of this number.
pub(crate) fn give_at<B: Worker>(places: &mut [Place<B>], number: usize, worker: B)
    requires { number < length places.old }
    ensures { places.new ≡ changed_at (made_back B.kind_of worker) number places.old }
{
    places[number].give(worker);
}

/// Retires a class at each place; how many workers were dropped.
pub(crate) fn retire_each<B: Worker>(places: &mut [Place<B>], class: &str) -> u32
    requires { length places.old ≤ most_hands }
    ensures count { result ≡ count_by (is_idle_of class.now) places.old }
    ensures places { places.new ≡ map (retired_at B.kind_of class.now) places.old }
{
    let mut dropped = 0;
    for place in places.iter_mut() {
        if place.retire(class) {
            dropped += 1;
        }
    }
    dropped
}
