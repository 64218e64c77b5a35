//! The keeper over a SQLite file, which opens it.
ghost use Rattle.std.specs.Prelude.{◌≡◌, false, is_some, Err, IfSome, IsSome};
ghost use Rattle.wm_keeper.specs.Keeper.{AreOfDifferentNumbers, KeepCause};

use crate::keeper::SqliteKeeper;
use crate::refusal::{Refusal, counted, refused};
use sqlite::{Alter, Connection, Error, File, FileStore};
use sqlite_disk::Disk;
use std::alloc::Global;
use std::marker::Model;
use std::mem;
use std::rt::HostRuntime;
use wm_faults::FaultCount;
use wm_keeper::{Change, KeepFault, Keeper, Row};

/// A keeper over a SQLite file: the one that its first load names, which is made where it is
/// missing. It is the trusted edge, and tells its count of faults alone. A contract sees that, and
/// whether a file is open.
///
/// Besides those of a [`SqliteKeeper`], an opening that is refused for another cause than memory is
/// a fault, and so is a commit while no file is open.
///
/// Its parameter is the type of the store that it opens, which is always a file's.
#[derive(Drop)]
pub struct FileKeeper<A: Alter = FileStore<File>> {
    rt: HostRuntime,
    keeper: Option<SqliteKeeper<A>>,
    faults: FaultCount,
}

impl<A: Alter> Model for FileKeeper<A> {
    ghost use Rattle.std.specs.Prelude.{◌+◌, is_some};
    ghost use Rattle.wm_sqlite.specs.States.{FileState, faults_of};

    ghost Value = { FileState };

    ghost view = { λ file. record { is_open = is_some file.keeper; faults = file.faults + faults_of file.keeper } };
}

impl FileKeeper {
    /// A keeper over no file yet.
    pub fn new(rt: &HostRuntime) -> FileKeeper
        ensures { result ≡ record { is_open = false; faults = 0 } }
    {
        FileKeeper {
            rt: *rt,
            keeper: None,
            faults: FaultCount::new(),
        }
    }
}

impl<A: Alter> FileKeeper<A> {
    /// Takes over what was opened. No file is open yet.
    fn take_over(&mut self, opened: Result<Connection<A>, Error>) -> Result<(), KeepFault>
        requires { self.old.is_open ≡ false }
        ensures { KeepCause result self.old.faults self.new.faults }
    {
        let connection = counted(&mut self.faults, refused(opened))?;
        match mem::replace(&mut self.keeper, Some(SqliteKeeper::adopt(connection))) {
            None => Ok(()),
            Some(_before) => unreachable!(),
        }
    }

    /// Makes the changes where there are some to make, and else answers the rows: in the file that
    /// is open, or in what was opened, which stays open.
    fn answer(
        &mut self,
        opened: Option<Result<Connection<A>, Error>>,
        name: &str,
        changes: Option<&[Change]>,
    ) -> Result<Vec<Row>, KeepFault>
        requires different { IfSome changes (λ asked. AreOfDifferentNumbers asked.now) }
        requires closed { IsSome opened → self.old.is_open ≡ false }
        ensures closed { is_some opened ≡ false → self.old.is_open ≡ false → result ≡ Err KeepFault.Failed }
        ensures cause { KeepCause result self.old.faults self.new.faults }
    {
        if let Some(opened) = opened {
            self.take_over(opened)?;
        }
        self.answer_open(name, changes)
    }

    /// The same in the file that is open.
    fn answer_open(&mut self, name: &str, changes: Option<&[Change]>) -> Result<Vec<Row>, KeepFault>
        requires { IfSome changes (λ asked. AreOfDifferentNumbers asked.now) }
        ensures closed { self.old.is_open ≡ false → result ≡ Err KeepFault.Failed }
        ensures cause { KeepCause result self.old.faults self.new.faults }
    {
        let alloc = self.rt.alloc();
        match &mut self.keeper {
            Some(keeper) => asked(keeper, alloc, name, changes),
            None => counted(&mut self.faults, Err(Refusal::Store)),
        }
    }
}

/// What a keeper answers: no rows where it has made the changes, and else those that it loads.
fn asked<K: Keeper>(
    keeper: &mut K,
    alloc: Global,
    name: &str,
    changes: Option<&[Change]>,
) -> Result<Vec<Row>, KeepFault>
    requires { IfSome changes (λ asked. AreOfDifferentNumbers asked.now) }
    ensures { KeepCause result (K.store keeper.old).faults (K.store keeper.new).faults }
{
    match changes {
        Some(changes) => {
            keeper.commit(changes)?;
            Ok(Vec::new(alloc))
        }
        None => keeper.load(name),
    }
}

impl<D: Disk> FileKeeper<FileStore<D>> {
    /// Answers in a file, on whatever disk. A call at a file's store of what is generic over stores
    /// takes long to prove, so this is the only one.
    fn serve(
        &mut self,
        opened: Option<Result<Connection<FileStore<D>>, Error>>,
        name: &str,
        changes: Option<&[Change]>,
    ) -> Result<Vec<Row>, KeepFault>
        requires different { IfSome changes (λ asked. AreOfDifferentNumbers asked.now) }
        requires closed { IsSome opened → self.old.is_open ≡ false }
        ensures closed { is_some opened ≡ false → self.old.is_open ≡ false → result ≡ Err KeepFault.Failed }
        ensures cause { KeepCause result self.old.faults self.new.faults }
    {
        self.answer(opened, name, changes)
    }
}

impl FileKeeper {
    /// The file of this name, which is made where it is missing; none where one is open.
    fn opened(&self, name: &str) -> Option<Result<Connection<FileStore<File>>, Error>>
        ensures { IsSome result → self.now.is_open ≡ false }
    {
        match self.keeper {
            Some(_) => None,
            None => Some(Connection::open(&self.rt, name)),
        }
    }
}

impl Keeper for FileKeeper {
    ghost use Rattle.std.specs.Prelude.{Err};
    ghost use Rattle.wm_keeper.specs.Keeper.{AreOfDifferentNumbers, KeepCause};
    ghost use Rattle.wm_sqlite.specs.States.{silent_store};

    ghost store = { λ file. silent_store file.faults };

    /// The rows of the file that is open; where none is, of the one of this name, which stays open.
    fn load(&mut self, name: &str) -> Result<Vec<Row>, KeepFault> {
        let opened = self.opened(name);
        self.serve(opened, name, None)
    }

    /// Makes the changes in the file that is open.
    fn commit(&mut self, changes: &[Change]) -> Result<(), KeepFault>
        requires { AreOfDifferentNumbers changes.now }
        ensures closed { self.old.is_open ≡ false → result ≡ Err KeepFault.Failed }
        ensures cause { KeepCause result self.old.faults self.new.faults }
    {
        done(self.serve(None, "", Some(changes)))
    }
}

/// An answer without what it holds.
fn done<T: Drop>(answer: Result<T, KeepFault>) -> Result<(), KeepFault>
    ensures failed { answer ≡ Err KeepFault.Failed → result ≡ Err KeepFault.Failed }
    ensures cause { (before : _) (now : _) → KeepCause answer before now → KeepCause result before now }
{
    answer?;
    Ok(())
}
