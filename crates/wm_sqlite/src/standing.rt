//! What a keeper knows of its tables.

/// Where the rows may stand.
#[derive(Clone, Copy, Debug, PartialEq, Eq)]
pub enum Spread {
    /// In both tables.
    Both,
    /// In `work2` alone: `work` is empty, and stays so.
    Second,
}

/// What a keeper knows of the tables of the rows.
#[derive(Clone, Copy, Debug, PartialEq, Eq)]
pub enum Standing {
    /// Nothing: the database has something besides the tables, a number stood in both of them, or a
    /// transaction was open when it was looked at.
    Unknown,
    /// The database has nothing.
    Missing,
    /// The database has `work` and nothing else, as one that was written before there was `work2`.
    First,
    /// The database has both tables, and nothing else.
    Found,
    /// The same, and the rows were read: their numbers are integers, no two are the same, and they
    /// stand there.
    Read(Spread),
}

impl Standing {
    ghost use Rattle.std.specs.Prelude.{◌≡◌, IsTrue};
    ghost use Rattle.wm_sqlite.specs.Told.{IsLookedAt, looked_at, spread_of};

    /// What is known once the rows were read, of which no two have the same number or some do.
    pub(crate) fn looked_at(self, apart: bool, spread: Spread) -> Standing
        ensures { result ≡ looked_at apart spread self }
    {
        match self {
            Standing::Unknown => Standing::Unknown,
            _ => if apart {
                Standing::Read(spread)
            } else {
                Standing::Unknown
            },
        }
    }

    /// Whether the rows were read, or nothing is known of them.
    pub(crate) fn is_looked_at(self) -> bool
        ensures { IsTrue result → IsLookedAt self }
    {
        matches!(self, Standing::Read(_) | Standing::Unknown)
    }

    /// Where the rows may stand.
    pub(crate) fn spread(self) -> Spread
        ensures { result ≡ spread_of self }
    {
        match self {
            Standing::Read(spread) => spread,
            _ => Spread::Both,
        }
    }
}
