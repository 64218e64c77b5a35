//! The driving of a pool: a thread for each share, and one in front.
ghost use Rattle.std.specs.Thread.{IsSync, IsSend};
ghost use Rattle.std.specs.Prelude.{◌≡◌, ◌+◌, ◌<◌, true, false, All, IsFalse, IsTrue, OnErr, OnOk, map};

use crate::shared::Shared;
use std::sync::Wait;
use std::thread;
use std::thread::Threads;

/// Turns a work until it is spent.
fn spend<R: Wait, S: Shared>(rt: &R, shared: &S, share: &mut S::Share, work: S::Work)
    requires { 0 < S.number share.old }
    ensures number { S.number share.new + 1 ≡ S.number share.old }
    ensures ended { S.is_ended share.new ≡ S.is_ended share.old }
    ensures portion { S.portion share.new ≡ S.portion share.old }
{
    let mut held = work;
    'turns: for _ in rt.forever() {
        match shared.turn(share, held) {
            Some(work) => held = work,
            None => return,
        }
    }
    unreachable!()
}

/// Takes works and spends each, until no further one comes.
fn serve<R: Wait, S: Shared>(rt: &R, shared: &S, share: &mut S::Share)
    requires idle { S.number share.old ≡ 0 }
    requires going { S.is_ended share.old ≡ false }
    ensures spent { S.number share.new ≡ 0 }
    ensures ended { S.is_ended share.new ≡ true }
    ensures portion { S.portion share.new ≡ S.portion share.old }
{
    'works: for _ in rt.forever() {
        match shared.next(share) {
            Some(work) => spend(rt, shared, share, work),
            None => return,
        }
    }
    unreachable!()
}

/// Leads, step after step, until there is no further one.
fn lead<R: Wait, S: Shared>(rt: &R, shared: &S) {
    for _ in rt.forever() {
        if !shared.front() {
            return;
        }
    }
    unreachable!()
}

/// Serves with each share, in as many threads.
fn serve_all<R: Threads + Wait + Sync, S: Shared>(rt: &R, shared: &S, shares: &mut [S::Share])
    requires idle { All (λ share. S.number share ≡ 0) shares.old }
    requires going { All (λ share. S.is_ended share ≡ false) shares.old }
    ensures spent { All (λ share. S.number share ≡ 0) shares.new }
    ensures ended { All (λ share. S.is_ended share ≡ true) shares.new }
    ensures portions { map S.portion shares.new ≡ map S.portion shares.old }
{
    let threads = shares.len().max(1);
    thread::for_each_mut(
        rt,
        shares,
        threads,
        &|_, share: &mut S::Share|
            requires { (S.number share.now ≡ 0) × (S.is_ended share.now ≡ false) }
            ensures { (S.number share.exit.now ≡ 0) × (S.is_ended share.exit.now ≡ true) × (S.portion share.exit.now ≡ S.portion share.entry.now) }
        { serve(rt, shared, share) },
    );
}

/// Has every share serve, all but one in a thread of its own, while one thread more leads, and gives
/// the shares back when all have stopped, and whether they were led. Each share that was comes back
/// ended. None has a work in its thread's hands, and each is the portion of its ledger that it was.
///
/// It allocates nothing itself. Where no thread can be made that leads, it makes no call, and the
/// shares come back as they were. Where one for a share can't be made, another thread serves with that
/// share after its own. That it returns isn't promised.
pub fn drive<R: Threads + Wait + Sync, S: Shared>(
    rt: &R,
    shared: &S,
    shares: Vec<S::Share>,
) -> (Vec<S::Share>, bool)
    requires idle { All (λ share. S.number share ≡ 0) shares.items }
    requires going { All (λ share. S.is_ended share ≡ false) shares.items }
    ensures spent { All (λ share. S.number share ≡ 0) result.0.items }
    ensures ended { IsTrue result.1 → All (λ share. S.is_ended share ≡ true) result.0.items }
    ensures portions { map S.portion result.0.items ≡ map S.portion shares.items }
    ensures unled { IsFalse result.1 → result.0.items ≡ shares.items }
{
    thread::scope(
        thread::scope_env(),
        rt,
        move |scope|
            requires { IsSync R.row × IsSync S.row × IsSend S.Share.row × All (λ share. S.number share ≡ 0) shares.items × All (λ share. S.is_ended share ≡ false) shares.items }
            ensures { All (λ share. S.number share ≡ 0) result.0.items × (IsTrue result.1 → All (λ share. S.is_ended share ≡ true) result.0.items) × (map S.portion result.0.items ≡ map S.portion shares.items) × (IsFalse result.1 → result.0.items ≡ shares.items) }
        {
            let mut shares = shares;
            let is_led = scope.spawn(move || lead(rt, shared)).is_ok();
            if is_led {
                serve_all(rt, shared, &mut shares);
            }
            (shares, is_led)
        },
    )
}
