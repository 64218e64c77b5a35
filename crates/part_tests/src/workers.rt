//! Workers, signals and the bench, of `wm_worker`, `wm_stock` and `wm_bench`.
ghost use Rattle.std.specs.Prelude.{◌≡◌, ◌++◌, ◌∷◌, [], pos, negsuc, codes, vec_len, IfOk, Some, None};
ghost use Rattle.wm_worker.specs.Answers.{entry_alone, stock_answer};

use crate::diarist::{Diarist, diary_text};
use crate::hands::add_hand;
use std::alloc::{AllocError, Global};
use std::process::Abort;
use std::test::Fail;
use wm_bench::{Bench, Hand, Seated};
use wm_data::{Data, Value};
use wm_stock::Echo;
use wm_worker::{Answer, Given, Kind, Signal, Task, Told, Worker};

/// Whether an answer is Success without data.
fn is_bare_success(answer: &Answer) -> bool {
    match answer {
        Answer::Success(output) => output.is_empty(),
        _ => false,
    }
}

/// What was told is a Success without data, of a task without input.
fn expect_bare_success(rt: &impl Abort, told: Told) {
    assert!(rt; told.input().is_empty());
    assert!(rt; is_bare_success(told.answer()));
    let answer = told.into_answer();
    let is_bare = is_bare_success(&answer);
    drop(answer);
    assert!(rt; is_bare);
}

/// A task without input.
fn bare_task(run: u64, attempt: u32) -> Task
    ensures { result.run ≡ run }
{
    Task {
        run,
        attempt,
        input: Data::empty(),
    }
}

/// Has a worker begin a run and take a turn of it.
fn turn_of<W: Worker>(
    alloc: Global,
    worker: &mut W,
    task: &Task,
    k: u32,
    signal: &Signal,
) -> Result<Told, AllocError>
    requires { signal.now.run ≡ task.now.run }
{
    worker.begin(alloc, task)?;
    worker.turn(alloc, task, k, signal)
}

/// Runs turn 3 of attempt 2 of run 7 without input, which succeeds, and gives the diary.
fn run_one_turn<W: Worker>(
    rt: &impl Abort,
    alloc: Global,
    worker: &mut W,
    signal: &Signal,
) -> Result<Option<String>, AllocError>
    requires { signal.now.run ≡ 7 }
{
    let task = bare_task(7, 2);
    let told = turn_of(alloc, worker, &task, 3, signal);
    drop(task);
    let told = told?;
    let turn = (told.kind(), told.run(), told.attempt(), told.k());
    expect_bare_success(rt, told);
    assert_eq!(rt; turn, (Kind::Echo, 7, 2, 3));
    assert_eq!(rt; worker.kind(), Kind::Echo);
    diary_text(alloc, worker)
}

/// What the worker has written down after that turn; none where it tells no diary.
fn expect_diary<W: Worker>(
    rt: &impl Abort,
    alloc: Global,
    mut worker: W,
    signal: &Signal,
    written: Option<&str>,
) -> Result<(), AllocError>
    requires { signal.now.run ≡ 7 }
{
    let diary = run_one_turn(rt, alloc, &mut worker, signal)?;
    assert_eq!(rt; diary.as_deref(), written);
    Ok(())
}

/// A boxed Echo.
fn boxed_echo(alloc: Global) -> Result<Box<dyn Worker + Send>, AllocError> {
    let echo: Box<dyn Worker + Send> = Box::new(alloc, Echo::new())?;
    Ok(echo)
}

/// A boxed Echo that tells a diary.
fn boxed_diarist(alloc: Global) -> Result<Box<dyn Worker + Send>, AllocError> {
    let diarist: Box<dyn Worker + Send> = Box::new(alloc, Diarist::new(alloc, Echo::new()))?;
    Ok(diarist)
}

/// A signal of run 7 that is raised.
fn raised(alloc: Global) -> Result<Signal, AllocError>
    ensures { IfOk result (λ signal. signal.run ≡ 7) }
{
    let signal = Signal::new(alloc, 7)?;
    signal.raise();
    Ok(signal)
}

#[test]
fn a_worker_tells_its_turn_and_its_diary(rt: HostRuntime) -> Result<(), Fail> {
    let alloc = rt.alloc();
    let never = Signal::never(7);
    let written = Some("run 7 begun\nrun 7 turn 3: Success {}\n");
    expect_diary(&rt, alloc, boxed_diarist(alloc)?, &never, written)?;
    expect_diary(&rt, alloc, boxed_echo(alloc)?, &never, None)?;
    expect_diary(&rt, alloc, Echo::new(), &raised(alloc)?, None)?;
    Ok(())
}

/// Compiles for values that threads may share.
fn is_shareable<T: Send + Sync>(_value: &T) {}

#[test]
fn a_raised_signal_is_seen_in_its_shares(rt: HostRuntime) -> Result<(), Fail> {
    let alloc = rt.alloc();
    let signal = Signal::new(alloc, 5)?;
    let share = signal.share()?;
    is_shareable(&share);
    assert!(rt; signal.poll().is_none());
    assert!(rt; share.poll().is_none());
    share.raise();
    for held in [&signal, &share, &signal.share()?] {
        assert_eq!(rt; held.poll().map(|raised| raised.run()), Some(5));
    }
    let never = Signal::never(5);
    never.raise();
    assert!(rt; never.poll().is_none());
    let share = never.share()?;
    share.raise();
    assert!(rt; share.poll().is_none());
    Ok(())
}

/// Two boxed workers without a diary, and one with.
fn three_hands(alloc: Global) -> Result<Vec<Hand>, AllocError>
    ensures { IfOk result (λ hands. vec_len hands ≡ 3) }
{
    let mut hands = Vec::new(alloc);
    add_hand(alloc, &mut hands, "a", boxed_echo(alloc)?)?;
    add_hand(alloc, &mut hands, "b", boxed_echo(alloc)?)?;
    add_hand(alloc, &mut hands, "c", boxed_diarist(alloc)?)?;
    Ok(hands)
}

/// A bench of such workers.
fn three_idle(alloc: Global) -> Result<Bench, AllocError> {
    let hands = three_hands(alloc)?;
    Bench::new(alloc, hands).map_err(|_| AllocError)
}

/// The first turn of the first attempt of a run, which succeeds.
fn take_turn<B: Worker>(
    rt: &impl Abort,
    alloc: Global,
    seat: &mut Seated<B>,
    run: u64,
) -> Result<(), AllocError>
    ensures number { seat.new.number ≡ seat.old.number }
    ensures kind { B.kind_of seat.new.worker ≡ B.kind_of seat.old.worker }
{
    let task = bare_task(run, 1);
    seat.begin(alloc, &task)?;
    let told = seat.turn(alloc, &task, 0, &Signal::never(run))?;
    assert_eq!(rt; (told.run(), told.k()), (run, 0));
    expect_bare_success(rt, told);
    Ok(())
}

/// Drives one run of one turn on an instance: it isn't on the bench meanwhile.
fn drive<B: Worker>(
    rt: &impl Abort,
    alloc: Global,
    bench: &mut Bench<B>,
    number: u32,
    run: u64,
) -> Result<(), AllocError> {
    let Some(mut seat) = bench.take(number) else {
        panic!(rt; "instance {number} isn't idle");
    };
    assert!(rt; bench.take(number).is_none());
    assert_eq!(rt; (seat.number(), seat.kind()), (number, Kind::Echo));
    let taken = take_turn(rt, alloc, &mut seat, run);
    bench.give(seat);
    taken
}

/// Drives three runs on two of the three instances.
fn drive_three<B: Worker>(
    rt: &impl Abort,
    alloc: Global,
    bench: &mut Bench<B>,
) -> Result<(), AllocError> {
    for (number, run) in [(2, 5), (0, 6), (2, 7)] {
        drive(rt, alloc, bench, number, run)?;
    }
    Ok(())
}

/// Compiles for values that may go to another thread.
fn is_sendable<T: Send>(_value: &T) {}

/// The second of three workers stays away, and there is no fourth.
fn leave_second(rt: &impl Abort, mut bench: Bench) -> Vec<Hand> {
    is_sendable(&bench);
    assert!(rt; bench.take(3).is_none());
    let seat = bench.take(1);
    is_sendable(&seat);
    assert!(rt; seat.is_some());
    bench.back()
}

/// The diary of two runs of one turn.
const TWO_RUNS: &str = r#"run 5 begun
run 5 turn 0: Success {}
run 7 begun
run 7 turn 0: Success {}
"#;

/// What the first and the third worker come back with: none has a diary but the third, which took
/// two runs of one turn.
fn expect_two(rt: &impl Abort, alloc: Global, hands: &[Hand]) -> Result<(), AllocError> {
    let [a, c] = hands else {
        panic!(rt; "not two hands");
    };
    assert_eq!(rt; (a.class.as_str(), c.class.as_str()), ("a", "c"));
    assert!(rt; diary_text(alloc, &a.worker)?.is_none());
    let diary = diary_text(alloc, &c.worker)?;
    assert_eq!(rt; diary.as_deref(), Some(TWO_RUNS));
    Ok(())
}

#[test]
fn workers_leave_the_bench_and_come_back(rt: HostRuntime) -> Result<(), Fail> {
    let alloc = rt.alloc();
    let mut bench = three_idle(alloc)?;
    let driven = drive_three(&rt, alloc, &mut bench);
    let hands = leave_second(&rt, bench);
    let told = expect_two(&rt, alloc, hands.as_slice());
    drop(hands);
    driven?;
    told?;
    Ok(())
}

/// Two boxed workers of one class, on a bench.
fn two_idle(alloc: Global) -> Result<Bench, AllocError> {
    let mut hands = Vec::new(alloc);
    add_hand(alloc, &mut hands, "Echo", boxed_echo(alloc)?)?;
    add_hand(alloc, &mut hands, "Echo", boxed_echo(alloc)?)?;
    Bench::new(alloc, hands).map_err(|_| AllocError)
}

/// Retires the class of two workers while the first is out: only the second is dropped at once, and
/// the first when it comes back.
fn retire_while_out(rt: &impl Abort, alloc: Global, bench: &mut Bench) -> Result<(), AllocError> {
    assert_eq!(rt; bench.retire("echo"), 0);
    let Some(mut seat) = bench.take(0) else {
        panic!(rt; "instance 0 isn't idle");
    };
    let taken = take_turn(rt, alloc, &mut seat, 5);
    assert!(rt; bench.take(0).is_none());
    assert_eq!(rt; bench.retire("Echo"), 1);
    assert!(rt; bench.take(1).is_none());
    bench.give(seat);
    assert!(rt; bench.take(0).is_none());
    assert_eq!(rt; bench.retire("Echo"), 0);
    taken
}

#[test]
fn a_retired_worker_is_dropped(rt: HostRuntime) -> Result<(), Fail> {
    let alloc = rt.alloc();
    let mut bench = two_idle(alloc)?;
    let retired = retire_while_out(&rt, alloc, &mut bench);
    let hands = bench.back();
    let left = hands.len();
    drop(hands);
    assert_eq!(rt; left, 0);
    retired?;
    Ok(())
}

/// What the stock kinds answer to a few inputs.
fn stock_answers()
    ensures echo { stock_answer Kind.Echo (entry_alone (codes "x") (Value.Int (pos 3))) 1 0
        ≡ Some (Given.Success (entry_alone (codes "x") (Value.Int (pos 3)))) }
    ensures sum { stock_answer Kind.Sum (entry_alone (codes "a") (Value.Int (pos 3))
        ++ entry_alone (codes "b") (Value.Ints (pos 4 ∷ negsuc 5 ∷ [])) ++ entry_alone (codes "c") (Value.Long (pos 9))) 1 0
        ≡ Some (Given.Success (entry_alone (codes "sum") (Value.Long (pos 1)))) }
    ensures sum_of_nothing { stock_answer Kind.Sum [] 1 0 ≡ Some (Given.Success (entry_alone (codes "sum") (Value.Long (pos 0)))) }

    ensures fails_first { stock_answer Kind.FailUntil [] 1 0 ≡ Some (Given.Failure []) }
    ensures then_succeeds { stock_answer Kind.FailUntil [] 2 0 ≡ Some (Given.Success []) }
    ensures never_fails { stock_answer Kind.FailUntil (entry_alone (codes "until") (Value.Int (pos 1))) 1 0
        ≡ Some (Given.Success (entry_alone (codes "until") (Value.Int (pos 1)))) }
    ensures retries_twice { stock_answer Kind.RetryUntil (entry_alone (codes "until") (Value.Int (pos 3))) 2 0 ≡ Some Given.Retry }
    ensures other_type { stock_answer Kind.RetryUntil (entry_alone (codes "until") (Value.Long (pos 3))) 2 0
        ≡ Some (Given.Success (entry_alone (codes "until") (Value.Long (pos 3)))) }

    ensures counts_on { stock_answer Kind.Count (entry_alone (codes "turns") (Value.Int (pos 2))) 1 0
        ≡ Some (Given.More (Some (entry_alone (codes "turn") (Value.Int (pos 1))))) }
    ensures has_counted { stock_answer Kind.Count (entry_alone (codes "turns") (Value.Int (pos 2))) 1 1
        ≡ Some (Given.Success (entry_alone (codes "turns") (Value.Int (pos 2)))) }
    ensures counts_once { stock_answer Kind.Count (entry_alone (codes "turns") (Value.Int (negsuc 4))) 1 0
        ≡ Some (Given.Success (entry_alone (codes "turns") (Value.Int (pos 1)))) }
    ensures waits { stock_answer Kind.Wait [] 1 9 ≡ Some (Given.More None) }
    ensures custom { stock_answer Kind.Custom [] 1 0 ≡ None }
{}
