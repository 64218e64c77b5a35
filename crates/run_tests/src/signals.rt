//! Runs with two worker threads whose workers look at their signals, which a gate of the test holds.
ghost use Rattle.std.specs.Prelude.{◌≤◌, vec_len, IfOk};
ghost use Rattle.wm_bench.specs.Places.{most_hands};

use crate::threads::run_at;
use part_tests::data::data_of;
use part_tests::hands::{add_hand, one_hand, words};
use part_tests::meeting::MOST_POLLS;
use std::alloc::{AllocError, Global};
use std::process::Abort;
use std::sync::atomic::{AtomicBool, AtomicU64, Ordering};
use std::test::Fail;
use std::thread;
use wm_bench::Hand;
use wm_cli::Status;
use wm_data::Value;
use wm_pool::{Gate, Point};
use wm_stock::Wait;
use wm_worker::{Answer, DoWork, Signal, Simple, Task};

/// More turns than any run of these tests takes: a worker whose signal is raised from the start is cut
/// in each of them.
const TOO_MANY_TURNS: u64 = 2_000;

/// What the gate and the workers of a run tell each other. The third line is held until a third run has
/// come to its first turn, where the workers wait for the fourth.
#[derive(Drop)]
struct Watch<'a, R> {
    rt: &'a R,
    /// Whether a second run has come to its first turn.
    met: AtomicBool,
    /// Whether a third one has, or needn't.
    began: AtomicBool,
    /// Whether a worker that looks needn't wait any more.
    passed: AtomicBool,
    /// The sum of the numbers of the runs whose signal a worker saw raised.
    seen: AtomicU64,
    turns: AtomicU64,
}

impl<'a, R: Abort> Watch<'a, R> {
    /// Of runs that haven't begun. Their workers wait for the fourth line, where they are to.
    fn of(rt: &'a R, waits: bool) -> Watch<'a, R> {
        Watch {
            rt,
            met: AtomicBool::new(false),
            began: AtomicBool::new(!waits),
            passed: AtomicBool::new(!waits),
            seen: AtomicU64::new(0),
            turns: AtomicU64::new(0),
        }
    }

    /// Waits until this is so.
    fn wait_for(&self, fact: &AtomicBool) {
        let rt = self.rt;
        for _i in 0..MOST_POLLS {
            if fact.load(Ordering::SeqCst) {
                return;
            }
            thread::yield_now();
        }
        panic!(rt; "a thread waited in vain");
    }

    /// Counts a turn.
    fn count(&self) {
        let rt = self.rt;
        let before = self.turns.fetch_add(1, Ordering::SeqCst);
        assert!(rt; before < TOO_MANY_TURNS, "turns without an end");
    }

    /// Tells that the run of this number has come to a turn.
    fn come(&self, run: u64) {
        if run >= 2 {
            self.met.store(true, Ordering::SeqCst);
        }
        if run >= 3 {
            self.began.store(true, Ordering::SeqCst);
        }
    }
}

impl<'a, R: Abort> Gate for Watch<'a, R> {
    fn at(&self, point: Point) {
        match point {
            Point::Turn { run, .. } => {
                self.count();
                self.come(run);
            }
            Point::Front { line: 3 } => self.wait_for(&self.began),
            Point::Front { line: 4 } => self.passed.store(true, Ordering::SeqCst),
            Point::Front { .. } => {}
        }
    }
}

/// Waits in its first turn until this is so, looks at its signal once, and gives a number.
#[derive(Drop)]
struct Look<'a, R> {
    watch: &'a Watch<'a, R>,
    until: &'a AtomicBool,
}

impl<'a, R: Abort> DoWork for Look<'a, R> {
    fn do_work(
        &mut self,
        alloc: Global,
        _task: &Task,
        _k: u32,
        signal: &Signal,
    ) -> Result<Answer, AllocError> {
        self.watch.wait_for(self.until);
        if let Some(raised) = signal.poll() {
            self.watch.seen.fetch_add(raised.run(), Ordering::SeqCst);
        }
        let output = data_of(alloc, "a", Value::Int(9))?;
        Ok(Answer::Success(output))
    }
}

/// A worker that waits for a second run, and two that wait as the watch has it.
fn looks<'a, R: Abort>(
    alloc: Global,
    watch: &'a Watch<'a, R>,
) -> Result<Vec<Hand<Simple<Look<'a, R>>>>, AllocError>
    ensures { IfOk result (λ hands. vec_len hands ≤ most_hands) }
{
    let mut hands = Vec::new(alloc);
    let until = &watch.met;
    add_hand(
        alloc,
        &mut hands,
        "First",
        Simple::new(Look { watch, until }),
    )?;
    let until = &watch.passed;
    add_hand(
        alloc,
        &mut hands,
        "Look",
        Simple::new(Look { watch, until }),
    )?;
    add_hand(
        alloc,
        &mut hands,
        "Look",
        Simple::new(Look { watch, until }),
    )?;
    Ok(hands)
}

const STOPPED: &str = r#"{"cmd":"conditions","connected":true}
{"cmd":"enqueue","works":[{"class":"First","id":"00000000-0000-0000-0000-000000000001"},{"class":"Look","id":"00000000-0000-0000-0000-000000000002","constraints":{"network":"CONNECTED"}},{"class":"Look","id":"00000000-0000-0000-0000-000000000003","constraints":{"network":"CONNECTED"},"after":["00000000-0000-0000-0000-000000000001"]}]}
{"cmd":"conditions"}
{"cmd":"conditions"}
{"cmd":"settle"}
{"cmd":"query"}
"#;

const STOPPED_REPLIES: &str = r#"{"line":1,"ok":"conditions","stopped":0}
{"line":2,"ok":"enqueued","works":[1,2,3]}
{"line":3,"ok":"conditions","stopped":2}
{"line":4,"ok":"conditions","stopped":0}
{"line":5,"ok":"settled"}
{"line":6,"ok":"query","works":[{"attempt":1,"generation":0,"id":"00000000-0000-0000-0000-000000000001","output":{"a":{"int":9}},"progress":{},"seq":1,"state":"SUCCEEDED","tags":[]},{"attempt":1,"due":0,"generation":0,"id":"00000000-0000-0000-0000-000000000002","output":{},"progress":{},"seq":2,"state":"ENQUEUED","tags":[]},{"attempt":1,"due":0,"generation":0,"id":"00000000-0000-0000-0000-000000000003","output":{},"progress":{},"seq":3,"state":"ENQUEUED","tags":[]}]}
"#;

const KEPT: &str =
    r#"{"cmd":"enqueue","works":[{"class":"Look","id":"00000000-0000-0000-0000-000000000001"}]}
{"cmd":"settle"}
{"cmd":"query"}
"#;

const KEPT_REPLIES: &str = r#"{"line":1,"ok":"enqueued","works":[1]}
{"line":2,"ok":"settled"}
{"line":3,"ok":"query","works":[{"attempt":1,"generation":0,"id":"00000000-0000-0000-0000-000000000001","output":{"a":{"int":9}},"progress":{},"seq":1,"state":"SUCCEEDED","tags":[]}]}
"#;

const WAITS: &str =
    r#"{"cmd":"enqueue","works":[{"class":"Wait","id":"00000000-0000-0000-0000-000000000001"}]}
{"cmd":"settle"}
{"cmd":"query"}
"#;

const WAITS_REPLIES: &str = r#"{"line":1,"ok":"enqueued","works":[1]}
{"line":2,"ok":"settled"}
{"line":3,"ok":"query","works":[{"attempt":1,"due":30000,"generation":0,"id":"00000000-0000-0000-0000-000000000001","output":{},"progress":{},"seq":1,"state":"ENQUEUED","tags":[]}]}
"#;

/// What a worker of a program's own answers is kept, but where its run was stopped: then it sees its
/// signal, and the work waits. The signal of a run that isn't stopped isn't raised, so that one that
/// only waits has no turn left in the end. Where a line stops two runs both see it, also the one that
/// was out when another run ended.
#[test]
fn a_worker_sees_whether_its_run_was_stopped(rt: HostRuntime) -> Result<(), Fail> {
    let alloc = rt.alloc();
    let words = words(alloc, &["--store", "a", "--workers", "2"])?;
    for (waits, script, replies, seen) in [
        (true, STOPPED, STOPPED_REPLIES, 5),
        (false, KEPT, KEPT_REPLIES, 0),
    ] {
        let watch = Watch::of(&rt, waits);
        let hands = looks(alloc, &watch)?;
        let (status, written) = run_at(&rt, alloc, &words, hands, script, &watch);
        assert_eq!(rt; status, Status::Done);
        assert_eq!(rt; written.as_slice(), replies.as_bytes());
        assert_eq!(rt; watch.seen.load(Ordering::SeqCst), seen);
    }
    let watch = Watch::of(&rt, false);
    let hands = one_hand(alloc, "Wait", Wait::new())?;
    let (status, written) = run_at(&rt, alloc, &words, hands, WAITS, &watch);
    assert_eq!(rt; status, Status::Done);
    assert_eq!(rt; written.as_slice(), WAITS_REPLIES.as_bytes());
    Ok(())
}
