//! A gate that holds threads at points until others have come to theirs.

use std::alloc::{AllocError, Global};
use std::sync::atomic::{AtomicBool, Ordering};
use std::thread;
use wm_pool::{Gate, Point};

/// How often a thread that is held looks whether it may go on.
const MOST_POLLS: u32 = 1_000_000;

/// A point as a case names it.
#[derive(Clone, Copy, Debug, PartialEq, Eq)]
pub enum Place {
    /// Before the line of this number is executed.
    Line(u32),
    /// Before this turn of a run.
    Turn { run: u64, k: u32 },
}

impl From<Point> for Place {
    fn from(point: Point) -> Place {
        match point {
            Point::Front { line } => Place::Line(line),
            Point::Turn { run, seq: _, k } => Place::Turn { run, k },
        }
    }
}

/// That a thread is held at one place until one has come to another.
#[derive(Clone, Copy, Debug)]
pub struct Hold {
    pub held: Place,
    pub until: Place,
}

/// The gate of a run with these holds.
#[derive(Drop)]
pub struct Holds<'a> {
    holds: &'a [Hold],
    /// Of each hold, whether a thread has come to where it ends.
    ended: Vec<AtomicBool>,
    /// Whether a thread was let go before its holds had ended.
    missed: AtomicBool,
}

impl<'a> Holds<'a> {
    /// A gate of which no hold has ended.
    pub fn of(alloc: Global, holds: &'a [Hold]) -> Result<Holds<'a>, AllocError> {
        let mut ended = Vec::new(alloc);
        for _hold in holds {
            ended.push(AtomicBool::new(false))?;
        }
        Ok(Holds {
            holds,
            ended,
            missed: AtomicBool::new(false),
        })
    }

    /// Whether a thread was let go, after a limited number of polls, before its holds had ended.
    pub fn missed(&self) -> bool {
        self.missed.load(Ordering::SeqCst)
    }

    /// Ends the holds that last until a thread comes to this place.
    fn come_to(&self, place: Place) {
        for (hold, ended) in self.holds.iter().zip(self.ended.iter()) {
            if hold.until == place {
                ended.store(true, Ordering::SeqCst);
            }
        }
    }

    /// Whether no hold keeps a thread at this place any more.
    fn lets_go(&self, place: Place) -> bool {
        self.holds.iter().zip(self.ended.iter()).all(|(hold, ended)| hold.held != place
            || ended.load(Ordering::SeqCst))
    }
}

impl Gate for Holds<'_> {
    fn at(&self, point: Point) {
        let place = Place::from(point);
        self.come_to(place);
        for _i in 0..MOST_POLLS {
            if self.lets_go(place) {
                return;
            }
            thread::yield_now();
        }
        self.missed.store(true, Ordering::SeqCst);
    }
}
