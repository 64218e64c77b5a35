//! The names that rows have for the values of enums, which are those of scripts and replies.

use wm_machine::{Applied, How, Phase, Shown};

pub fn phase_named(name: &str) -> Option<Phase> {
    match name {
        "WAITING" => Some(Phase::Waiting),
        "RUNNING" => Some(Phase::Running),
        "SUCCEEDED" => Some(Phase::Done(How::Succeeded)),
        "FAILED" => Some(Phase::Done(How::Failed)),
        "CANCELLED" => Some(Phase::Done(How::Cancelled)),
        _ => None,
    }
}

pub fn phase_name(phase: Phase) -> &'static str {
    match phase {
        Phase::Waiting => "WAITING",
        Phase::Running => "RUNNING",
        Phase::Done(How::Succeeded) => "SUCCEEDED",
        Phase::Done(How::Failed) => "FAILED",
        Phase::Done(How::Cancelled) => "CANCELLED",
    }
}

/// How a work is finished, by the name of the phase.
pub fn how_named(name: &str) -> Option<How> {
    match phase_named(name) {
        Some(Phase::Done(how)) => Some(how),
        _ => None,
    }
}

pub fn shown_named(name: &str) -> Option<Shown> {
    match name {
        "ENQUEUED" => Some(Shown::Enqueued),
        "RUNNING" => Some(Shown::Running),
        "SUCCEEDED" => Some(Shown::Succeeded),
        "FAILED" => Some(Shown::Failed),
        "BLOCKED" => Some(Shown::Blocked),
        "CANCELLED" => Some(Shown::Cancelled),
        _ => None,
    }
}

pub fn applied_named(name: &str) -> Option<Applied> {
    match name {
        "NOT_APPLIED" => Some(Applied::NotApplied),
        "APPLIED_IMMEDIATELY" => Some(Applied::Immediately),
        "APPLIED_FOR_NEXT_RUN" => Some(Applied::ForNextRun),
        _ => None,
    }
}
