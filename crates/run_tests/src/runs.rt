//! Whole runs, of `wm_cli`, as far as no worked case shows them.
ghost use Rattle.std.specs.Prelude.{◌≡◌, ◌≤◌, vec_len, IfOk};
ghost use Rattle.wm_bench.specs.Places.{most_hands};

use crate::threads::run_at;
use part_tests::data::data_of;
use part_tests::diarist::{Diarist, diary_text};
use part_tests::hands::{add_hand, one_hand, words};
use part_tests::uploader::Uploader;
use std::alloc::{AllocError, Global};
use std::process::Abort;
use std::sync::Wait;
use std::test::Fail;
use std::thread::Threads;
use wm_bench::Hand;
use wm_cli::{Ended, Status, run};
use wm_collections::both;
use wm_data::Value;
use wm_io::{MemorySink, MemorySource};
use wm_keeper::SureKeeper;
use wm_pool::OpenGate;
use wm_stock::{Count, Echo};
use wm_worker::{Simple, Worker};

/// The words of an ordinary run.
const DEMO: [&str; 2] = ["--store", "demo"];

const SCRIPT: &str =
    r#"{"cmd":"enqueue","works":[{"class":"Echo","id":"00000000-0000-0000-0000-000000000001"}]}
{"cmd":"query"}
"#;

const REPLIES: &str = r#"{"line":1,"ok":"enqueued","works":[1]}
{"line":2,"ok":"query","works":[{"attempt":1,"generation":0,"id":"00000000-0000-0000-0000-000000000001","output":{},"progress":{},"seq":1,"state":"SUCCEEDED","tags":[]}]}
"#;

/// Two workers of class Echo.
fn echoes(alloc: Global) -> Result<Vec<Hand<Echo>>, AllocError>
    ensures { IfOk result (λ hands. vec_len hands ≤ most_hands) }
{
    let mut hands = Vec::new(alloc);
    add_hand(alloc, &mut hands, "Echo", Echo::new())?;
    add_hand(alloc, &mut hands, "Echo", Echo::new())?;
    Ok(hands)
}

/// A run over std's reader and writer and a keeper that never fails.
#[test]
fn a_run_takes_any_source_sink_and_keeper(rt: HostRuntime) -> Result<(), Fail> {
    let alloc = rt.alloc();
    let words = words(alloc, &DEMO)?;
    let hands = echoes(alloc)?;
    let (status, written) = run_at(&rt, alloc, &words, hands, SCRIPT, &OpenGate);
    assert_eq!(rt; status, Status::Done);
    assert_eq!(rt; written.as_slice(), REPLIES.as_bytes());
    Ok(())
}

/// What is left of a run: how it ended, what it wrote, how many events it had, and the hands that
/// came back.
#[derive(Drop)]
struct Left {
    status: Status,
    written: Vec<u8>,
    events: usize,
    hands: Vec<Hand>,
}

/// What is left of a run.
fn left_of(alloc: Global, ended: Ended<SureKeeper, MemorySink>) -> Result<Left, AllocError> {
    let (status, events) = (ended.status, ended.log.len());
    let written = Vec::from_slice(alloc, ended.sink.bytes());
    let hands = hands_of(ended);
    let (hands, written) = both(hands, written)?;
    Ok(Left {
        status,
        written,
        events,
        hands,
    })
}

/// The hands that came back from a run.
fn hands_of(ended: Ended<SureKeeper, MemorySink>) -> Vec<Hand> {
    ended.hands
}

/// Runs a script with these words and workers, over sources and sinks in memory.
fn run_with<R: Threads + Wait + Sync>(
    rt: &R,
    alloc: Global,
    called: &[&str],
    hands: Vec<Hand>,
    script: &str,
) -> Result<Left, AllocError>
    requires { vec_len hands ≤ most_hands }
{
    let (hands, words) = both(hands, words(alloc, called))?;
    let (hands, script) = both(hands, Vec::from_slice(alloc, script.as_bytes()))?;
    let mut source = MemorySource::new(script, 100, Vec::new(alloc));
    let sink = MemorySink::new(100, Vec::new(alloc));
    let keeper = SureKeeper::new(Vec::new(alloc));
    let ended = run(
        rt,
        alloc,
        &words,
        hands,
        &mut source,
        sink,
        keeper,
        &OpenGate,
    );
    left_of(alloc, ended)
}

/// A run is done, had so many events, wrote this, and has its one worker back, with this diary.
fn expect_left(
    rt: &impl Abort,
    alloc: Global,
    left: &Left,
    class: &str,
    expected: (usize, &str, &str),
) -> Result<(), Fail> {
    assert_eq!(rt; left.status, Status::Done);
    assert_eq!(rt; left.events, expected.0);
    assert_eq!(rt; left.written.as_slice(), expected.1.as_bytes());
    let [hand] = left.hands.as_slice() else {
        panic!(rt; "not one hand");
    };
    assert_eq!(rt; hand.class.as_str(), class);
    let diary = diary_text(alloc, &hand.worker)?;
    assert_eq!(rt; diary.as_deref(), Some(expected.2));
    Ok(())
}

/// A boxed Echo that tells a diary.
fn boxed_diarist(alloc: Global) -> Result<Box<dyn Worker + Send>, AllocError> {
    let diarist: Box<dyn Worker + Send> = Box::new(alloc, Diarist::new(alloc, Echo::new()))?;
    Ok(diarist)
}

#[test]
fn a_boxed_worker_comes_back_with_its_diary(rt: HostRuntime) -> Result<(), Fail> {
    let alloc = rt.alloc();
    let hands = one_hand(alloc, "Echo", boxed_diarist(alloc)?)?;
    let left = run_with(&rt, alloc, &DEMO, hands, SCRIPT)?;
    let diary = "run 1 begun\nrun 1 turn 0: Success {}\n";
    expect_left(&rt, alloc, &left, "Echo", (4, REPLIES, diary))
}

const UPLOAD: &str =
    r#"{"cmd":"enqueue","works":[{"class":"Upload","id":"00000000-0000-0000-0000-000000000001"}]}
{"cmd":"query"}
"#;

const UPLOAD_REPLIES: &str = r#"{"line":1,"ok":"enqueued","works":[1]}
{"line":2,"ok":"query","works":[{"attempt":1,"generation":0,"id":"00000000-0000-0000-0000-000000000001","output":{"sent":{"int":2}},"progress":{},"seq":1,"state":"FAILED","tags":[]}]}
"#;

const UPLOAD_DIARY: &str = r#"run 1 begun
run 1 turn 0: More {"of":{"int":3}}
run 1 turn 1: More {"of":{"int":3}}
run 1 turn 2: Failure {"sent":{"int":2}}
"#;

/// A caller's own worker, which tells its progress twice, and fails.
fn uploader(alloc: Global) -> Result<Simple<Uploader>, AllocError> {
    let progress = data_of(alloc, "of", Value::Int(3))?;
    let (progress, output) = both(progress, data_of(alloc, "sent", Value::Int(2)))?;
    Ok(Simple::new(Uploader::new(2, progress, output)))
}

/// A caller's own worker, which may give what it likes: it tells its progress twice, and fails.
#[test]
fn a_custom_worker_takes_turns_and_fails(rt: HostRuntime) -> Result<(), Fail> {
    let alloc = rt.alloc();
    let worker: Box<dyn Worker + Send> = Box::new(alloc, Diarist::new(alloc, uploader(alloc)?))?;
    let left = run_with(
        &rt,
        alloc,
        &DEMO,
        one_hand(alloc, "Upload", worker)?,
        UPLOAD,
    )?;
    let expected = (6, UPLOAD_REPLIES, UPLOAD_DIARY);
    expect_left(&rt, alloc, &left, "Upload", expected)
}

const TWO_CLASSES: &str =
    r#"{"cmd":"enqueue","works":[{"class":"Left","id":"00000000-0000-0000-0000-000000000001"},{"class":"Right","id":"00000000-0000-0000-0000-000000000002"}]}
{"class":"Left","cmd":"retire"}
{"cmd":"enqueue","works":[{"class":"Left","id":"00000000-0000-0000-0000-000000000003"},{"class":"Right","id":"00000000-0000-0000-0000-000000000004"}]}
{"cmd":"summary"}
"#;

const TWO_CLASSES_REPLIES: &str = r#"{"line":1,"ok":"enqueued","works":[1,2]}
{"dropped":1,"line":2,"ok":"retired"}
{"line":3,"ok":"enqueued","works":[3,4]}
{"attempts":3,"blocked":0,"cancelled":0,"enqueued":0,"failed":1,"line":4,"ok":"summary","running":0,"succeeded":3}
"#;

const RIGHT_DIARY: &str = r#"run 2 begun
run 2 turn 0: Success {}
run 3 begun
run 3 turn 0: Success {}
"#;

/// The hands of two workers of one kind, which tell diaries, each of a class of its own.
fn two_hands(alloc: Global) -> Result<Vec<Hand>, AllocError>
    ensures { IfOk result (λ hands. vec_len hands ≤ most_hands) }
{
    let mut hands = Vec::new(alloc);
    add_hand(alloc, &mut hands, "Left", boxed_diarist(alloc)?)?;
    add_hand(alloc, &mut hands, "Right", boxed_diarist(alloc)?)?;
    Ok(hands)
}

/// A class is retired, and the other one of its kind goes on: its worker alone comes back.
#[test]
fn a_retire_takes_the_workers_of_its_class_alone(rt: HostRuntime) -> Result<(), Fail> {
    let alloc = rt.alloc();
    let left = run_with(&rt, alloc, &DEMO, two_hands(alloc)?, TWO_CLASSES)?;
    let expected = (11, TWO_CLASSES_REPLIES, RIGHT_DIARY);
    expect_left(&rt, alloc, &left, "Right", expected)
}

const TWO_COUNTS: &str =
    r#"{"cmd":"enqueue","works":[{"class":"Count","id":"00000000-0000-0000-0000-000000000001","input":{"turns":{"int":3}}},{"class":"Count","id":"00000000-0000-0000-0000-000000000002","input":{"turns":{"int":1}}}]}
{"cmd":"settle"}
"#;

const COUNT_DIARY: &str = r#"run 1 begun
run 1 turn 0: More {"turn":{"int":1}}
run 1 turn 1: More {"turn":{"int":2}}
run 1 turn 2: Success {"turns":{"int":3}}
run 2 begun
run 2 turn 0: Success {"turns":{"int":1}}
"#;

const COUNT_REPLIES: &str = r#"{"line":1,"ok":"enqueued","works":[1,2]}
{"line":2,"ok":"settled"}
"#;

/// With worker threads too, each run begins once, before its turn 0, and takes each turn once.
#[test]
fn a_worker_begins_once_and_takes_each_turn_once(rt: HostRuntime) -> Result<(), Fail> {
    let alloc = rt.alloc();
    for workers in ["1", "2"] {
        let worker: Box<dyn Worker + Send> = Box::new(alloc, Diarist::new(alloc, Count::new()))?;
        let called = ["--store", "a", "--workers", workers];
        let left = run_with(
            &rt,
            alloc,
            &called,
            one_hand(alloc, "Count", worker)?,
            TWO_COUNTS,
        )?;
        let told = expect_left(&rt, alloc, &left, "Count", (8, COUNT_REPLIES, COUNT_DIARY));
        drop(left);
        told?;
    }
    Ok(())
}
