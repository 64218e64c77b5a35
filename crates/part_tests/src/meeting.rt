//! A gate at which threads meet, for the tests.

use std::sync::atomic::{AtomicBool, AtomicU64, Ordering};
use std::thread;
use wm_pool::{Gate, Point};

/// How often a thread that waits looks whether it may go on.
pub const MOST_POLLS: u32 = 1_000_000;

/// Where some runs meet at their turn 0, or some lines before they are executed: each is held until all
/// have come there, for a limited number of polls.
#[derive(Drop)]
pub struct Meeting {
    /// Whether lines meet, and else runs.
    of_lines: bool,
    /// How many meet.
    all: u64,
    /// How many have come.
    came: AtomicU64,
    /// Whether one was let go before all had come.
    missed: AtomicBool,
    /// Whether line 3 came before all had come.
    hurried: AtomicBool,
}

impl Meeting {
    /// A meeting of so many runs, or of so many lines, to which none has come.
    pub fn of(all: u64, of_lines: bool) -> Meeting {
        Meeting {
            of_lines,
            all,
            came: AtomicU64::new(0),
            missed: AtomicBool::new(false),
            hurried: AtomicBool::new(false),
        }
    }

    /// Whether one was let go before all had come.
    pub fn missed(&self) -> bool {
        self.missed.load(Ordering::SeqCst)
    }

    /// Whether line 3 came before all had come.
    pub fn hurried(&self) -> bool {
        self.hurried.load(Ordering::SeqCst)
    }

    /// Whether all have come.
    fn is_full(&self) -> bool {
        self.came.load(Ordering::SeqCst) >= self.all
    }

    /// Whether what comes to this point meets the others here.
    fn meets(&self, point: Point) -> bool {
        match point {
            Point::Turn { k, .. } => k == 0 && !self.of_lines,
            Point::Front { .. } => self.of_lines,
        }
    }

    /// Holds one that has come until all have.
    fn wait(&self) {
        for _i in 0..MOST_POLLS {
            if self.is_full() {
                return;
            }
            thread::yield_now();
        }
        self.missed.store(true, Ordering::SeqCst);
    }
}

impl Gate for Meeting {
    fn at(&self, point: Point) {
        if self.meets(point) {
            self.came.fetch_add(1, Ordering::SeqCst);
            self.wait();
        } else if point == (Point::Front { line: 3 }) && !self.is_full() {
            self.hurried.store(true, Ordering::SeqCst);
        }
    }
}
