//! Commands, and the one line that spells each.
//!
//! A line is cut into words once. The first word is the keyword of the command, and determines how
//! the others are read.

ghost use Rattle.std.specs.Prelude.{◌≡◌, ◌≤◌, length};
ghost use Rattle.std.specs.Result.{IsOkAnd};
ghost use Rattle.rd_marks.specs.declared.commands.Command.{Command as SomeCommand};
ghost use Rattle.rd_text.specs.Spelling.{spelling, IsInRange, IsSameCommand, Says, most_line_bytes};

use super::keywords::Keyword;
use super::words::parts_of;
use crate::faults::LineFault;
use rd_marks::Command;

/// The greatest number of bytes in a line, without its line feed.
pub const MOST_LINE_BYTES: usize = 256;

/// Returns the command that a line, without its line feed, spells.
///
/// # Errors
///
/// In this order: `LineTooLong` if the line has more than 256 bytes; `BadLine` if it doesn't follow
/// the grammar, where a bookmark's name may be any word; `BadName` if such a word is not one that a
/// bookmark can have as its name (`MarkName`).
pub fn parse_command(line: &[u8]) -> Result<Command, LineFault>
    ensures says { Says line.now result }
    ensures one { (c : SomeCommand) → length line.now ≤ most_line_bytes → IsInRange c
        → line.now ≡ spelling c → IsOkAnd result (λ d. IsSameCommand c d) }
{
    if line.len() > MOST_LINE_BYTES {
        return Err(LineFault::LineTooLong);
    }
    let Some(words) = parts_of(line, b' ') else {
        return Err(LineFault::BadLine);
    };
    let [first, others @ ..] = words.as_slice() else {
        return Err(LineFault::BadLine);
    };
    let Some(keyword) = Keyword::of(first) else {
        return Err(LineFault::BadLine);
    };
    keyword.command(others)
}
