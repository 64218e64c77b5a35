//! The lines of scripts, of `wm_script`.

use case_files::fields::{RowFault, given, has_only, text};
use part_calls::told::string;
use serde_json::{Value, push};
use std::alloc::{AllocError, Global};
use wm_machine::{Command, LineFault};
use wm_script::read_lines;

/// The name of a command, or that of the fault of a line without one.
pub fn command_name(command: &Command) -> &'static str {
    match command {
        Command::Enqueue { .. } => "enqueue",
        Command::Cancel(_) => "cancel",
        Command::Update(_) => "update",
        Command::Moment(_) => "moment",
        Command::Conditions(_) => "conditions",
        Command::Prune { force: false } => "prune",
        Command::Prune { force: true } => "prune by force",
        Command::Query(_) => "query",
        Command::Observe(_) => "observe",
        Command::Retire(_) => "retire",
        Command::Settle => "settle",
        Command::Hush => "hush",
        Command::Summary => "summary",
        Command::Faulty(LineFault::Bad) => "Bad",
        Command::Faulty(_) => "another fault",
    }
}

/// The names of commands.
fn names(alloc: Global, commands: &[Command]) -> Result<Value, AllocError> {
    let mut names = Vec::new(alloc);
    for command in commands {
        push(&mut names, string(alloc, command_name(command))?)?;
    }
    Ok(Value::Array(names))
}

/// What the lines of a script are read as.
pub fn read(alloc: Global, row: &Value) -> Result<Value, RowFault> {
    has_only(row, &["script"])?;
    let script = text(row, "script")?;
    let commands = given(read_lines(alloc, script.as_bytes()))?;
    let told = names(alloc, commands.as_slice());
    drop(commands);
    Ok(told?)
}
