//! What the program comes to, with its code and its text.
ghost use Rattle.std.specs.Prelude.{◌≡◌, IfOk, string_bytes};
ghost use Rattle.wm_outcome.specs.Outcomes.{code_of, text_of};

use std::alloc::{AllocError, Global};
use wm_audit_program::{Checked, Exported};
use wm_callers_program::CallersEnd;
use wm_ended::{Ended, NotBegun};
use wm_live_program::LiveEnded;
use wm_worker::Worker;

/// What the program came to, by its first word.
#[derive(Drop)]
pub enum Outcome<K, W, B = Box<dyn Worker + Send>> {
    /// A run, without one of the first words below.
    Run(Ended<K, W, B>),
    /// The export of a run, by `export`.
    Export(Exported<K, W, B>),
    /// The check of an audit, by `check`.
    Check(Checked<K, W>),
    /// A test driver that was asked the lines of a script, by `live`.
    Live(LiveEnded<K, W, B>),
    /// One whose table wasn't begun.
    LiveNotBegun(NotBegun<K, W, B>),
    /// Callers on threads of their own, by `callers`.
    Callers(CallersEnd<K, W, B>),
}

impl<K, W, B> Outcome<K, W, B> {
    /// The exit status of the program.
    pub fn code(&self) -> u8
        ensures { result ≡ code_of self.now }
    {
        match self {
            Outcome::Run(ended) => ended.status.code(),
            Outcome::Export(exported) => exported.status.code(),
            Outcome::Check(checked) => checked.status.code(),
            Outcome::Live(ended) => ended.status.code(),
            Outcome::LiveNotBegun(back) => back.status.code(),
            Outcome::Callers(called) => called.ended.status.code(),
        }
    }

    /// What the program writes on standard error, without the line's end. It may be empty.
    pub fn text(&self, alloc: Global) -> Result<String, AllocError>
        ensures { IfOk result (λ text. string_bytes text ≡ text_of self.now) }
    {
        match self {
            Outcome::Run(ended) => ended.status.text(alloc),
            Outcome::Export(exported) => exported.status.text(alloc),
            Outcome::Check(checked) => String::from_str(alloc, checked.status.text()),
            Outcome::Live(ended) => ended.status.text(alloc),
            Outcome::LiveNotBegun(back) => back.status.text(alloc),
            Outcome::Callers(called) => called.ended.status.text(alloc),
        }
    }
}
