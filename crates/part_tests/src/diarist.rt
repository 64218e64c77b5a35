//! A worker that tells a diary, and what a diary says, for the tests.
ghost use Rattle.std.specs.Prelude.{◌≡◌, IfOk};
ghost use Rattle.wm_worker.specs.Answers.{given_of};

use std::alloc::{AllocError, Global};
use wm_collections::{Items, Replica};
use wm_worker::{Answer, Entry, Given, Kind, Signal, Task, Told, Worker};

/// A worker that does what another one does, and writes it down. What that one writes down isn't
/// told.
#[derive(Drop)]
pub struct Diarist<W> {
    worker: W,
    entries: Items<Entry>,
}

impl<W> Diarist<W> {
    /// One that has written nothing down.
    pub fn new(alloc: Global, worker: W) -> Diarist<W> {
        Diarist {
            worker,
            entries: Items::new(alloc),
        }
    }
}

impl<W: Worker> Worker for Diarist<W> {
    ghost use Rattle.std.specs.Prelude.{Some};

    ghost kind_of = { λ diarist. W.kind_of diarist.worker };

    ghost diary_of = { λ diarist. Some diarist.entries };

    fn kind(&self) -> Kind {
        self.worker.kind()
    }

    fn diary(&self) -> Option<&[Entry]> {
        Some(self.entries.as_slice())
    }

    fn begin(&mut self, alloc: Global, task: &Task) -> Result<(), AllocError> {
        self.worker.begin(alloc, task)?;
        self.entries.push(Entry::Begun { run: task.run })?;
        Ok(())
    }

    fn turn(
        &mut self,
        alloc: Global,
        task: &Task,
        k: u32,
        signal: &Signal,
    ) -> Result<Told, AllocError> {
        let told = self.worker.turn(alloc, task, k, signal)?;
        let (told, given) = with_given(alloc, told)?;
        if let Some(given) = given {
            let run = task.run;
            self.entries.push(Entry::Gave { run, k, given })?;
        }
        Ok(told)
    }
}

/// What was told, with what it gives.
fn with_given(alloc: Global, told: Told) -> Result<(Told, Option<Given>), AllocError>
    ensures { IfOk result (λ both. (both.0 ≡ told) × (both.1 ≡ given_of told.answer)) }
{
    let given = given(alloc, told.answer())?;
    Ok((told, given))
}

/// What an answer gives; nothing where it was cut.
fn given(alloc: Global, answer: &Answer) -> Result<Option<Given>, AllocError>
    ensures { IfOk result (λ given. given ≡ given_of answer.entry.now) }
{
    Ok(match answer {
        Answer::More(progress) => Some(Given::More(progress.replica(alloc)?)),
        Answer::Success(output) => Some(Given::Success(output.replica(alloc)?)),
        Answer::Failure(output) => Some(Given::Failure(output.replica(alloc)?)),
        Answer::Retry => Some(Given::Retry),
        Answer::Cut(_) => None,
    })
}

/// What was given, by its name, with its data as JSON.
fn given_text(alloc: Global, given: &Given) -> Result<String, AllocError> {
    let (name, told) = match given {
        Given::More(None) => return String::from_str(alloc, "More"),
        Given::Retry => return String::from_str(alloc, "Retry"),
        Given::More(Some(progress)) => ("More", progress),
        Given::Success(output) => ("Success", output),
        Given::Failure(output) => ("Failure", output),
    };
    let data = told.to_text(alloc)?;
    format!(in alloc; "{name} {}", data.as_str())
}

/// An entry of a diary in words: its run, and where it is of a turn, which, and what was given.
fn entry_text(alloc: Global, entry: &Entry) -> Result<String, AllocError> {
    match entry {
        Entry::Begun { run } => format!(in alloc; "run {run} begun"),
        Entry::Gave { run, k, given } => {
            let given = given_text(alloc, given)?;
            format!(in alloc; "run {run} turn {k}: {given}")
        }
    }
}

/// The entries of the diary that a worker tells, one a line; none where it tells none.
pub fn diary_text<B: Worker>(alloc: Global, worker: &B) -> Result<Option<String>, AllocError> {
    let Some(entries) = worker.diary() else {
        return Ok(None);
    };
    let mut text = String::new(alloc);
    for entry in entries {
        text.push_str(&entry_text(alloc, entry)?)?;
        text.push_str("\n")?;
    }
    Ok(Some(text))
}
