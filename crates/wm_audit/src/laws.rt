//! Laws of audits, over their definitions alone. Each is the contract of a function that does nothing.
ghost use Rattle.std.specs.Prelude.{◌≡◌, ◌↔◌, ℕ, List};
ghost use Rattle.wm_audit.specs.Exported.{IsAuditOf};
ghost use Rattle.wm_audit.specs.Verdicts.{IsVerdict};
ghost use Rattle.wm_audit.specs.declared.verdict.Verdict.{Verdict};
ghost use Rattle.wm_audit.specs.declared.verdict.Verdict.TheVariants.{Sound};
ghost use Rattle.wm_machine.specs.declared.state.State.{State};

/// Bytes are found sound exactly where they are the audit of a run, and then the last state is that of
/// the run.
pub fn what_is_sound_is_an_audit()
    ensures { (bytes : List ℕ) (last : State) → IsVerdict bytes (Sound last) ↔ IsAuditOf bytes last }
{}

/// Bytes have one verdict.
pub fn bytes_have_one_verdict()
    ensures { (bytes : List ℕ) (one other : Verdict) → IsVerdict bytes one → IsVerdict bytes other → one ≡ other }
{}
