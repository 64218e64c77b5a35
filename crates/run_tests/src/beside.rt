//! A line beside a run.
ghost use Rattle.std.specs.List.{AllByRecursion};
ghost use Rattle.std.specs.Prelude.{◌≡◌, ◌≤◌, ◌<◌, ◌^◌, [], length, vec_len, IfOk};
ghost use Rattle.wm_beginning.specs.Begun.{AreInputs};
ghost use Rattle.wm_beginning.specs.Loading.{MayBegin};
ghost use Rattle.wm_bench.specs.Places.{most_hands};
ghost use Rattle.wm_ended.specs.Tells.{tells_of};
ghost use Rattle.wm_machine.specs.Outcome.{IsAskable};
ghost use Rattle.wm_roll.specs.Parts.{without};
ghost use Rattle.wm_session.specs.BetweenRuns.{IsAtBegin};

use std::alloc::{AllocError, Global};
use std::marker::Brand;
use std::test::Fail;
use wm_beginning::{Loaded, begin, load};
use wm_bench::{Hand, Seated};
use wm_cli::open_book;
use wm_collections::{Items, Text};
use wm_io::{Sink, StdSink};
use wm_keeper::{Keeper, MemoryKeeper};
use wm_machine::Command;
use wm_pool::OpenGate;
use wm_script::read_lines;
use wm_session::{After, Book, Front, Job, run_serial};
use wm_stock::Echo;
use wm_table::{Mark, Ticket};
use wm_worker::{Signal, Told, Worker};

/// How lines are answered: the first, which enqueues a work, the next one while the work's run is out,
/// by which the run's signal may be raised, and the next one once the run has reported.
#[derive(Clone, Copy, Debug, PartialEq, Eq)]
struct Beside {
    enqueued: Front,
    beside: Front,
    raised: bool,
    after: Front,
}

/// Has a worker report that memory was refused to it: the session ends, or a stopped run is over.
fn stop<K: Keeper, W: Sink, B: Worker, M: Mark>(
    book: &mut Book<K, W, B, M>,
    ticket: Ticket<M>,
    seat: Seated<B>,
)
    requires alone { without ticket.task.run book.old.table.roll ≡ [] }
    requires number { seat.number ≡ ticket.instance }
    requires kind { B.kind_of seat.worker ≡ ticket.kind }
    ensures { book.new.table.roll ≡ [] }
{
    match book.report(ticket, seat, Err(AllocError)) {
        After::Over | After::Stopped => {}
        After::Go(..) | After::Again(..) => unreachable!(),
    }
}

/// Has a worker begin a run and take its first turn.
fn first_turn<B: Worker, M: Mark>(
    alloc: Global,
    seat: &mut Seated<B>,
    ticket: &Ticket<M>,
    signal: &Signal,
) -> Result<Told, AllocError>
    requires { signal.now.run ≡ ticket.now.task.run }
    ensures number { seat.new.number ≡ seat.old.number }
    ensures kind { B.kind_of seat.new.worker ≡ B.kind_of seat.old.worker }
{
    seat.begin(alloc, ticket.task())?;
    seat.turn(alloc, ticket.task(), ticket.k(), signal)
}

/// Has the only worker that is out take a turn, and reports it; a run that goes on ends the session.
fn drive_once<K: Keeper, W: Sink, B: Worker, M: Mark>(
    alloc: Global,
    book: &mut Book<K, W, B, M>,
    ticket: Ticket<M>,
    mut seat: Seated<B>,
    signal: &Signal,
)
    requires alone { without ticket.task.run book.old.table.roll ≡ [] }
    requires number { seat.number ≡ ticket.instance }
    requires kind { B.kind_of seat.worker ≡ ticket.kind }
    requires own_signal { signal.now.run ≡ ticket.task.run }
    ensures { book.new.table.roll ≡ [] }
{
    let Ok(told) = first_turn(alloc, &mut seat, &ticket, signal) else {
        stop(book, ticket, seat);
        return;
    };
    match book.report(ticket, seat, Ok(told)) {
        After::Over | After::Stopped => {}
        After::Go(next, kept) => stop(book, next, kept),
        After::Again(ticket, seat) => stop(book, ticket, seat),
    }
}

/// How the next line is answered while the work that is first runs, whether the run's signal is raised
/// then, and how the next line is answered once the run has reported.
fn around_a_run<K: Keeper, W: Sink, B: Worker, M: Mark>(
    alloc: Global,
    book: &mut Book<K, W, B, M>,
) -> (Front, bool, Front)
    requires { book.old.table.roll ≡ [] }
    ensures { book.new.table.roll ≡ [] }
{
    match book.claim() {
        Job::Run(ticket, seat, signal) => {
            let beside = book.front_step();
            let raised = signal.poll().is_some();
            drive_once(alloc, book, ticket, seat, &signal);
            (beside, raised, book.front_step())
        }
        Job::Failed | Job::None | Job::Stopped => (Front::Stopped, false, Front::Stopped),
    }
}

/// How the lines of a book are answered whose first enqueues one work.
fn fronts<K: Keeper + Drop, W: Sink + Drop, B: Worker, M: Mark>(
    alloc: Global,
    mut book: Book<K, W, B, M>,
) -> Beside
    requires begins { IsAtBegin M.inputs.lines book }
    requires askable { AllByRecursion IsAskable M.inputs.lines }
{
    let enqueued = book.front_step();
    let (beside, raised, after) = around_a_run(alloc, &mut book);
    drop(run_serial(alloc, book, &OpenGate));
    Beside {
        enqueued,
        beside,
        raised,
        after,
    }
}

/// How these commands, of a script, are answered over rows loaded; the mark is what the run is given.
fn fronts_over<K: Keeper + Drop, W: Sink + Drop, B: Worker, M: Mark>(
    alloc: Global,
    loaded: Loaded<K, W, B>,
    commands: Items<Command>,
) -> Option<Beside>
    requires may { MayBegin K.store B.kind_of loaded }
    requires inputs { AreInputs (tells_of K.store W.given W.faults B.kind_of B.diary_of) M.inputs loaded commands }
    requires askable { AllByRecursion IsAskable commands }
    requires few { length commands < 2 ^ 32 }
{
    let begun = match begin::<K, W, B, M>(alloc, loaded) {
        Ok(begun) => begun,
        Err(back) => {
            drop(back);
            drop(commands);
            return None;
        }
    };
    match open_book(alloc, begun, commands) {
        Ok(book) => Some(fronts(alloc, book)),
        Err(ended) => {
            drop(ended);
            None
        }
    }
}

/// How these commands are answered over the rows of a keeper.
fn fronts_with<K: Keeper + Drop, W: Sink + Drop, B: Worker>(
    alloc: Global,
    commands: Items<Command>,
    hands: Vec<Hand<B>>,
    sink: W,
    keeper: K,
) -> Option<Beside>
    requires few_hands { vec_len hands ≤ most_hands }
    requires askable { AllByRecursion IsAskable commands }
    requires few { length commands < 2 ^ 32 }
{
    match load(alloc, "a", hands, sink, keeper) {
        Ok(loaded) => fronts_over::<K, W, B, Brand>(alloc, loaded, commands),
        Err(back) => {
            drop(back);
            drop(commands);
            None
        }
    }
}

/// A worker of class Echo.
fn one_echo(alloc: Global) -> Result<Vec<Hand<Echo>>, AllocError>
    ensures { IfOk result (λ hands. vec_len hands ≤ most_hands) }
{
    let class = Text::from_str(alloc, "Echo")?;
    let worker = Echo::new();
    Ok(vec![in alloc; Hand { class, worker }]?)
}

const SETTLES: &str =
    r#"{"cmd":"enqueue","works":[{"class":"Echo","id":"00000000-0000-0000-0000-000000000001"}]}
{"cmd":"settle"}
"#;

const CANCELS: &str =
    r#"{"cmd":"enqueue","works":[{"class":"Echo","id":"00000000-0000-0000-0000-000000000001"}]}
{"cmd":"cancel","id":"00000000-0000-0000-0000-000000000001"}
{"cmd":"settle"}
"#;

/// The commands of a script of at most three lines.
fn commands(alloc: Global, script: &str) -> Result<Items<Command>, AllocError>
    ensures askable { IfOk result (λ commands. AllByRecursion IsAskable commands) }
    ensures few { IfOk result (λ commands. length commands < 2 ^ 32) }
{
    match read_lines(alloc, script.as_bytes()) {
        Ok(commands) if commands.len() <= 3 => Ok(commands),
        _ => Err(AllocError),
    }
}

/// How the lines of a script are answered on an empty store, over a keeper that fails at this call.
fn answers(alloc: Global, script: &str, failing: u32) -> Result<Option<Beside>, AllocError> {
    let commands = commands(alloc, script)?;
    let hands = one_echo(alloc)?;
    let failing = vec![in alloc; failing]?;
    let keeper = MemoryKeeper::new(Vec::new(alloc), failing);
    let mut written = Vec::new(alloc);
    let sink = StdSink::new(&mut written);
    Ok(fronts_with(alloc, commands, hands, sink, keeper))
}

/// A line that settles isn't executed while a run is out, and is once the run has reported. A line that
/// cancels the running work is, and raises the run's signal; the report that comes after it is late, and
/// then there is nothing left to do. Where its commit fails, no signal is raised, and the session ends.
#[test]
fn a_line_that_settles_waits_for_a_report_and_others_come_beside_it(
    rt: HostRuntime,
) -> Result<(), Fail> {
    for (script, failing, beside, raised, after) in [
        (SETTLES, 0, Front::NotSettled, false, Front::Moved),
        (CANCELS, 0, Front::Moved, true, Front::Moved),
        (CANCELS, 4, Front::Stopped, false, Front::Stopped),
    ] {
        let want = Beside {
            enqueued: Front::Moved,
            beside,
            raised,
            after,
        };
        assert_eq!(rt; answers(rt.alloc(), script, failing)?, Some(want));
    }
    Ok(())
}
