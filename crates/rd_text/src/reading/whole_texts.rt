//! What the lines of a whole text spell. Each line is read like a line from a source.

ghost use Rattle.std.specs.Prelude.{◌≡◌, ◌≢◌, ◌==◌, [], IfOk, IfErr, IsOk};
ghost use Rattle.std.specs.List.{AllZip, slice_split};
ghost use Rattle.rd_text.specs.Lines.{commands_of};
ghost use Rattle.rd_text.specs.Lines.{lines_of};
ghost use Rattle.rd_text.specs.Spelling.{Says};

use super::commands::parse_command;
use crate::faults::LineFault;
use rd_cell::Refusal;
use rd_marks::Command;
use std::alloc::{AllocError, Global};

/// What a line of a script spells: a command, or the line's fault.
pub type ParsedLine = Result<Command, LineFault>;

/// Returns what each line of a text spells, in order. The last line needs no line feed.
///
/// # Errors
///
/// `NoMemory` if memory for the list was refused, which never happens if the text is empty.
pub fn lines(alloc: Global, text: &[u8]) -> Result<Vec<ParsedLine>, Refusal>
    ensures ok { IfOk result (λ said. AllZip Says (lines_of text.now) said.items) }
    ensures err { IfErr result (λ refusal. refusal ≡ Refusal.NoMemory) }
    ensures succeeds { text.now ≡ [] → IsOk result }
{
    if text.is_empty() {
        return Ok(Vec::new(alloc));
    }
    let mut said = Vec::new(alloc);
    for line in without_last_feed(text).split(|byte| *byte == b'\n') {
        if said.push(parse_command(line)).is_err() {
            return Err(Refusal::NoMemory);
        }
    }
    Ok(said)
}

/// Returns the commands among what lines spell, in their order. Fails only if memory is refused.
pub fn spelled_commands(alloc: Global, said: &[ParsedLine]) -> Result<Vec<Command>, AllocError>
    ensures { IfOk result (λ commands. commands.items ≡ commands_of said.now) }
{
    let mut commands = Vec::new(alloc);
    for line in said {
        if let Ok(command) = line {
            commands.push(*command)?;
        }
    }
    Ok(commands)
}

/// Returns a text, which must not be empty, without the line feed at its end, if it has one there.
/// The lines of the text are what stands between the line feeds of the result.
fn without_last_feed(text: &[u8]) -> &[u8]
    requires { text.now ≢ [] }
    ensures { slice_split (λ byte. byte == 10) result.now ≡ lines_of text.now }
{
    match text.strip_suffix(b"\n") {
        Some(rest) => rest,
        None => text,
    }
}
