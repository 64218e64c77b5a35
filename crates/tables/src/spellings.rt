//! The spellings of commands, of `wm_spelling`.

use case_files::fields::{RowFault, given, has_only, text};
use serde_json::{Value, push};
use std::alloc::{AllocError, Global};
use wm_machine::Command;
use wm_script::read_lines;
use wm_spelling::{command_in, spelled};

/// The command that the spelling of a command is read as.
fn again(alloc: Global, command: &Command) -> Result<Command, AllocError> {
    let written = spelled(alloc, command)?;
    command_in(alloc, &written)
}

/// The spelling of the command that the spelling of a command is read as.
fn spelling(alloc: Global, command: &Command) -> Result<Value, AllocError> {
    let again = again(alloc, command)?;
    let written = spelled(alloc, &again);
    drop(again);
    Ok(Value::String(written?.to_string(alloc)?))
}

/// The spellings of commands.
fn spellings(alloc: Global, commands: &[Command]) -> Result<Value, AllocError> {
    let mut texts = Vec::new(alloc);
    for command in commands {
        push(&mut texts, spelling(alloc, command)?)?;
    }
    Ok(Value::Array(texts))
}

/// How the commands of a script's lines are spelled.
pub fn written(alloc: Global, row: &Value) -> Result<Value, RowFault> {
    has_only(row, &["script"])?;
    let script = text(row, "script")?;
    let commands = given(read_lines(alloc, script.as_bytes()))?;
    let told = spellings(alloc, commands.as_slice());
    drop(commands);
    Ok(told?)
}
