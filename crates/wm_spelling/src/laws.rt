//! Laws of spellings, over their definitions alone. Each is the contract of a function that does
//! nothing.
ghost use Rattle.std.specs.Prelude.{◌≡◌, ℕ, List};
ghost use Rattle.std.specs.List.{AllByRecursion};
ghost use Rattle.wm_machine.specs.declared.command.Command.{Command};
ghost use Rattle.wm_script.specs.Lines.{command_of, commands_in};
ghost use Rattle.wm_spelling.specs.Commands.{spelled, IsCanonical};

/// The command of a line is the one that its own spelling is read as, and so is each command of a
/// script.
pub fn what_is_read_is_canonical()
    ensures line { (line : List ℕ) → IsCanonical (command_of line) }
    ensures script { (bytes : List ℕ) → AllByRecursion IsCanonical (commands_in bytes) }
{}

/// Two canonical commands with one spelling are the same.
pub fn spellings_differ()
    ensures { (one other : Command) → IsCanonical one → IsCanonical other → spelled one ≡ spelled other
        → one ≡ other }
{}
