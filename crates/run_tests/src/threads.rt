//! Runs with worker threads, and callers of a script, which a gate of the test holds until they have met.
ghost use Rattle.std.specs.Prelude.{◌≤◌, vec_len, IfOk};
ghost use Rattle.wm_bench.specs.Places.{most_hands};

use part_tests::hands::{add_hand, one_hand, words};
use part_tests::meeting::Meeting;
use std::alloc::{AllocError, Global};
use std::sync::Wait;
use std::test::Fail;
use std::thread::Threads;
use wm_bench::Hand;
use wm_callers_program::{CallersEnd, run_callers};
use wm_cli::{Status, run};
use wm_io::{StdSink, StdSource};
use wm_keeper::SureKeeper;
use wm_pool::Gate;
use wm_stock::{Count, Echo};
use wm_worker::Worker;

/// Four workers of class Count.
fn counts(alloc: Global) -> Result<Vec<Hand<Count>>, AllocError>
    ensures { IfOk result (λ hands. vec_len hands ≤ most_hands) }
{
    let mut hands = Vec::new(alloc);
    add_hand(alloc, &mut hands, "Count", Count::new())?;
    add_hand(alloc, &mut hands, "Count", Count::new())?;
    add_hand(alloc, &mut hands, "Count", Count::new())?;
    add_hand(alloc, &mut hands, "Count", Count::new())?;
    Ok(hands)
}

/// How a run of a script ends with these words, workers and gate, and what it writes.
pub(crate) fn run_at<R: Threads + Wait + Sync, B: Worker + Send, G: Gate + Sync>(
    rt: &R,
    alloc: Global,
    words: &[String],
    hands: Vec<Hand<B>>,
    script: &str,
    gate: &G,
) -> (Status, Vec<u8>)
    requires { vec_len hands ≤ most_hands }
{
    let mut written = Vec::new(alloc);
    let mut source = StdSource::new(script.as_bytes());
    let sink = StdSink::new(&mut written);
    let keeper = SureKeeper::new(Vec::new(alloc));
    let ended = run(rt, alloc, words, hands, &mut source, sink, keeper, gate);
    let status = ended.status;
    drop(ended);
    (status, written)
}

const TWO_WORKS: &str =
    r#"{"cmd":"enqueue","works":[{"class":"Count","id":"00000000-0000-0000-0000-000000000001","input":{"turns":{"int":1}}},{"class":"Count","id":"00000000-0000-0000-0000-000000000002","input":{"turns":{"int":1}}}]}
{"cmd":"settle"}
{"cmd":"summary"}
"#;

const TWO_REPLIES: &str = r#"{"line":1,"ok":"enqueued","works":[1,2]}
{"line":2,"ok":"settled"}
{"attempts":2,"blocked":0,"cancelled":0,"enqueued":0,"failed":0,"line":3,"ok":"summary","running":0,"succeeded":2}
"#;

const FOUR_WORKS: &str =
    r#"{"cmd":"enqueue","works":[{"class":"Count","id":"00000000-0000-0000-0000-000000000001","input":{"turns":{"int":1}}},{"class":"Count","id":"00000000-0000-0000-0000-000000000002","input":{"turns":{"int":2}}},{"class":"Count","id":"00000000-0000-0000-0000-000000000003","input":{"turns":{"int":3}}},{"class":"Count","id":"00000000-0000-0000-0000-000000000004","input":{"turns":{"int":4}}}]}
{"cmd":"settle"}
{"cmd":"summary"}
"#;

const FOUR_REPLIES: &str = r#"{"line":1,"ok":"enqueued","works":[1,2,3,4]}
{"line":2,"ok":"settled"}
{"attempts":4,"blocked":0,"cancelled":0,"enqueued":0,"failed":0,"line":3,"ok":"summary","running":0,"succeeded":4}
"#;

/// Runs take their turns at the same time: on one thread the first of them would wait in vain for the
/// others. The line that settles waits for all of them meanwhile.
#[test]
fn runs_of_several_threads_meet_at_their_first_turn(rt: HostRuntime) -> Result<(), Fail> {
    let alloc = rt.alloc();
    for (workers, works, script, replies) in [
        ("2", 2, TWO_WORKS, TWO_REPLIES),
        ("64", 4, FOUR_WORKS, FOUR_REPLIES),
    ] {
        let meeting = Meeting::of(works, false);
        let words = words(alloc, &["--store", "a", "--workers", workers])?;
        let hands = counts(alloc)?;
        let (status, written) = run_at(&rt, alloc, &words, hands, script, &meeting);
        assert_eq!(rt; status, Status::Done);
        assert_eq!(rt; written.as_slice(), replies.as_bytes());
        assert!(rt; !meeting.missed(), "{works} runs didn't meet");
        assert!(rt; !meeting.hurried(), "a settle of {works} runs didn't wait");
    }
    Ok(())
}

const ONE_ID: &str =
    r#"{"cmd":"enqueue","works":[{"class":"Echo","id":"00000000-0000-0000-0000-000000000001"}]}
{"cmd":"enqueue","works":[{"class":"Echo","id":"00000000-0000-0000-0000-000000000001"}]}
"#;

const FIRST_CAME: &str = r#"{"line":1,"ok":"enqueued","works":[1]}
{"error":"IdInUse","id":"00000000-0000-0000-0000-000000000001","line":2}
"#;

const SECOND_CAME: &str = r#"{"line":2,"ok":"enqueued","works":[1]}
{"error":"IdInUse","id":"00000000-0000-0000-0000-000000000001","line":1}
"#;

/// Whether the caller that called first has the id, and the other one was refused.
fn has_one_the_id(callers: &[u32], written: &[u8]) -> bool {
    match callers {
        [0, 1] => written == FIRST_CAME.as_bytes(),
        [1, 0] => written == SECOND_CAME.as_bytes(),
        _ => false,
    }
}

/// How two callers of one id end at a gate, and whether one of both has it, and what is written.
fn call_both<R: Threads + Wait + Sync>(
    rt: &R,
    alloc: Global,
    words: &[String],
    hands: Vec<Hand<Echo>>,
    meeting: &Meeting,
) -> (Status, bool)
    requires { vec_len hands ≤ most_hands }
{
    let mut written = Vec::new(alloc);
    let mut source = StdSource::new(ONE_ID.as_bytes());
    let sink = StdSink::new(&mut written);
    let keeper = SureKeeper::new(Vec::new(alloc));
    let called = run_callers(rt, alloc, words, hands, &mut source, sink, keeper, meeting);
    let CallersEnd { ended, callers } = called;
    let status = ended.status;
    drop(ended);
    (status, has_one_the_id(&callers, &written))
}

/// One of both has the id, and the other is refused. On one thread the first would wait in vain.
#[test]
fn two_callers_enqueue_one_id(rt: HostRuntime) -> Result<(), Fail> {
    let alloc = rt.alloc();
    let words = words(alloc, &["--store", "a", "--workers", "2"])?;
    let hands = one_hand(alloc, "Echo", Echo::new())?;
    let meeting = Meeting::of(2, true);
    let (status, has_one) = call_both(&rt, alloc, &words, hands, &meeting);
    assert_eq!(rt; status, Status::Done);
    assert!(rt; has_one, "not one of both has the id");
    assert!(rt; !meeting.missed(), "the callers didn't meet");
    Ok(())
}
