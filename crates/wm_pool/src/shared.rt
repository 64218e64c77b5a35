//! The trait of what the threads of a pool share.
ghost use Rattle.std.specs.Prelude.{◌≡◌, ℕ, ◌+◌, ◌<◌, Bool, false, is_none};

/// What the threads of a pool share. One thread is in front and leads. Each other one has a share of
/// a ledger, takes works with it and turns them. A work can't be let go: `turn` spends it, or gives
/// it back.
///
/// Calls of several threads may be under way at the same time. No method is handed what it waits
/// by: an implementation has it in itself, as a `&R`, with the bound `Wait` on its own `impl`.
pub trait Shared: Sync {
    ghost use Rattle.wm_pool.specs.Shares.{count_of};

    /// What a thread takes, turns and has to spend.
    type Work: Send;

    /// What a thread holds beside its works: a portion of a ledger.
    type Share: Send + Drop;

    /// How many works the thread of a share holds: its amount in the ledger.
    ghost number: { Self.Share → ℕ };

    /// Whether a share is ended: no further work comes for its thread.
    ghost is_ended: { Self.Share → Bool };

    /// How many of the parts of its ledger a share has.
    ghost portion: { Self.Share → ℕ };

    /// A work for the thread of this share, or none where no further one comes, which ends the
    /// share. It may wait for either.
    fn next(&self, share: &mut Self::Share) -> Option<Self::Work>
        requires { is_ended share.old ≡ false }
        ensures number { number share.new ≡ number share.old + count_of result }
        ensures ended { is_ended share.new ≡ is_none result }
        ensures portion { portion share.new ≡ portion share.old };

    /// Takes one turn of a work that the thread of this share holds, and gives the work back where
    /// that wasn't its last one.
    fn turn(&self, share: &mut Self::Share, work: Self::Work) -> Option<Self::Work>
        requires { 0 < number share.old }
        ensures number { number share.new + 1 ≡ number share.old + count_of result }
        ensures ended { is_ended share.new ≡ is_ended share.old }
        ensures portion { portion share.new ≡ portion share.old };

    /// Takes one step in front, and answers whether there may be a further one. It may wait.
    fn front(&self) -> bool;
}
