//! What tells a session what comes next.
ghost use Rattle.std.specs.Prelude.{◌≡◌, ◌∷◌, ◌++◌, [], List, length, IfOk, OnErr};
ghost use Rattle.wm_hearings.specs.Feeds.{hearing_at, last_at};

use crate::hearing::{Heard, Hearing};
use std::alloc::{AllocError, Global};
use std::marker::Model;
use wm_collections::{Items, Replica};

/// What tells what comes next, and when. A contract sees the list of the hearings that it has told.
pub trait Feed {
    ghost use Rattle.wm_hearings.specs.declared.hearing.Hearing.{Hearing};

    /// The hearings that it has told, in order.
    ghost told: { Self → List Hearing };

    /// What comes next: a line without its LF, of which a last one without LF counts; that a line was too
    /// long, above 1,048,576 bytes, and was skipped to its LF; that nothing came until about a moment, in
    /// milliseconds since 1970, where one is given; the end of the input; or that it can't be read. A feed
    /// needn't keep to the moment; with one that has passed it answers at once.
    ///
    /// Memory that is refused is the only error, and then nothing was told.
    fn next(&mut self, alloc: Global, until: Option<u64>) -> Result<Hearing, AllocError>
        ensures ok { IfOk result (λ hearing. told self.new ≡ told self.old ++ hearing ∷ []) }
        ensures err { OnErr result (told self.new ≡ told self.old) };
}

/// A feed in memory: it tells a list of hearings, and then the end for ever, at the last moment. A contract
/// sees the list that it was given, and what it has told.
#[derive(Debug, Drop)]
pub struct ListFeed {
    given: Items<Hearing>,
    told: Items<Hearing>,
}

impl Model for ListFeed {
    ghost use Rattle.std.specs.Prelude.{◌≡◌, length};
    ghost use Rattle.wm_hearings.specs.Feeds.{first_told, ListState};

    ghost Value = { ListState };

    ghost view = { λ f. record { given = f.given; told = f.told } };

    ghost invariant = { λ f. f.told ≡ first_told f.given (length f.told) };
}

impl ListFeed {
    /// A feed of these hearings, which has told none. It takes no memory.
    pub fn new(alloc: Global, hearings: Items<Hearing>) -> ListFeed
        ensures given { result.given ≡ hearings }
        ensures told { result.told ≡ [] }
    {
        ListFeed {
            given: hearings,
            told: Items::new(alloc),
        }
    }
}

impl Feed for ListFeed {
    ghost told = { λ f. f.told };

    fn next(&mut self, alloc: Global, _until: Option<u64>) -> Result<Hearing, AllocError>
        ensures ok { IfOk result (λ hearing. self.new.told ≡ self.old.told ++ hearing ∷ []) }
        ensures err { OnErr result (self.new.told ≡ self.old.told) }

        ensures hearing { IfOk result (λ hearing. hearing ≡ hearing_at self.old.given (length self.old.told)) }
        ensures given { self.new.given ≡ self.old.given }
    {
        let hearing = hearing_at(alloc, self.given.as_slice(), self.told.len())?;
        add(&mut self.told, hearing.replica(alloc)?)?;
        Ok(hearing)
    }
}

/// Adds a hearing at the end. Where memory is refused, the list is as it was.
fn add(told: &mut Items<Hearing>, hearing: Hearing) -> Result<(), AllocError>
    ensures ok { IfOk result (λ done. told.new ≡ told.old ++ hearing ∷ []) }
    ensures err { OnErr result (told.new ≡ told.old) }
{
    told.push(hearing)?;
    Ok(())
}

/// A copy of the hearing of this index, and where there is none the end, at the last moment.
fn hearing_at(alloc: Global, given: &[Hearing], index: usize) -> Result<Hearing, AllocError>
    ensures { IfOk result (λ hearing. hearing ≡ hearing_at given.now index) }
{
    match given.get(index) {
        Some(hearing) => hearing.replica(alloc),
        None => Ok(Hearing {
            at: last_at(given),
            heard: Heard::End,
        }),
    }
}

/// The moment of the last hearing, 0 where there is none.
fn last_at(given: &[Hearing]) -> u64
    ensures { result ≡ last_at given.now }
{
    match given.last() {
        Some(hearing) => hearing.at,
        None => 0,
    }
}
