//! The bench: a place for each instance, with its worker on it, out with a seat, or dropped.
ghost use Rattle.std.specs.Prelude.{◌≡◌, ℕ, ◌≤◌, map, count_by, vec_len, IfOk, IfErr, IfSome, IfNone, OnSome, option_map};
ghost use Rattle.wm_worker.specs.declared.kind.Kind.{Kind};

use crate::hand::Hand;
use crate::place::{Place, give_at, retire_each, take_at};
use crate::seat::Seated;
use std::alloc::{AllocFailed, Global};
use std::marker::Model;
use wm_worker::Worker;

/// The instances of a run, numbered from 0, each idle at its place, out with a seat, or dropped
/// because its class was retired. A contract sees the list of the places.
#[derive(Drop)]
pub struct Bench<B = Box<dyn Worker + Send>> {
    places: Vec<Place<B>>,
    /// Empty, with room for each instance.
    room: Vec<Hand<B>>,
}

impl<B> Model for Bench<B> {
    ghost use Rattle.std.specs.Prelude.{◌≡◌, ◌≤◌, List, [], vec_len, vec_capacity};
    ghost use Rattle.wm_bench.specs.Places.{most_hands};
    ghost use Rattle.wm_bench.specs.declared.place.Place.{Place};

    ghost Value = { List (Place B) };

    ghost view = { λ b. b.places.items };

    ghost invariant = { λ b. (b.room.items ≡ []) × (vec_len b.places ≤ vec_capacity b.room) × (vec_len b.places ≤ most_hands) };
}

impl<B: Worker> Bench<B> {
    ghost use Rattle.wm_bench.specs.Places.{place_of, idle_at, idle_hands, is_idle_of, changed_at, made_away, made_back, most_hands, retired_at, IsAwayAt};

    /// A bench of these hands, at most 10,000, all idle, numbered from 0 in order. Where memory is
    /// refused the hands come back.
    pub fn new(
        alloc: Global,
        mut hands: Vec<Hand<B>>,
    ) -> Result<Bench<B>, AllocFailed<Vec<Hand<B>>>>
        requires { vec_len hands ≤ most_hands }
        ensures places { IfOk result (λ bench. bench ≡ map place_of hands.items) }
        ensures hands { IfErr result (λ failed. failed.value.items ≡ hands.items) }
    {
        let Ok(mut places) = Vec::with_capacity(alloc, hands.len()) else {
            return Err(AllocFailed { value: hands });
        };
        'hands: for hand in hands.drain(..) {
            places.push_reserved(Place::of(hand));
        }
        Ok(Bench {
            places,
            room: hands,
        })
    }

    /// Takes the instance of this number out, if it is idle on the bench.
    pub fn take(&mut self, number: u32) -> Option<Seated<B>>
        ensures seat { result ≡ option_map (λ worker. record { number = number; worker = worker }) (idle_at number self.old) }
        ensures taken { OnSome result (self.new ≡ changed_at (made_away B.kind_of) number self.old) }
        ensures none { IfNone result (self.new ≡ self.old) }

        // It can be given back.
        ensures away { IfSome result (λ seat. IsAwayAt number (B.kind_of seat.worker) self.new) }
    {
        let worker = take_at(&mut self.places, number as usize)?;
        Some(Seated { number, worker })
    }

    /// Puts a worker back at its place, which it was taken from: it is idle there again, or dropped
    /// where its class was retired meanwhile.
    pub fn give(&mut self, seat: Seated<B>)
        requires { IsAwayAt seat.number (B.kind_of seat.worker) self.old }
        ensures { self.new ≡ changed_at (made_back B.kind_of seat.worker) seat.number self.old }
    {
        let Seated { number, worker } = seat;
        give_at(&mut self.places, number as usize, worker);
    }

    /// Retires a class: its instances that are idle are dropped, and those that are out when they
    /// come back. How many were dropped. It takes no memory.
    pub fn retire(&mut self, class: &str) -> u32
        ensures count { result ≡ count_by (is_idle_of class.now) self.old }
        ensures places { self.new ≡ map (retired_at B.kind_of class.now) self.old }

        // Those that are out can still be given back.
        ensures away { (number : ℕ) (kind : Kind)
            → IsAwayAt number kind self.old → IsAwayAt number kind self.new }
    {
        retire_each(&mut self.places, class)
    }

    /// The instances that are on the bench, in order of their numbers.
    pub fn back(self) -> Vec<Hand<B>>
        ensures { result.items ≡ idle_hands self }
    {
        let Bench { places, mut room } = self;
        'places: for place in places {
            if let Some(hand) = place.into_hand() {
                room.push_reserved(hand);
            }
        }
        room
    }
}
