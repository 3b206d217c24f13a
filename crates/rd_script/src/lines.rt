//! Lines of a script, read byte by byte into a buffer of fixed capacity.
//!
//! A run reads all of its lines into one buffer, so that no line needs a new one. If a line is too
//! long, the rest of it is read and discarded, and the next line begins after its line feed.

ghost use Rattle.std.specs.Prelude.{◌≡◌, ℕ, List, [], ◌∷◌, ◌++◌, OnOk, false};
ghost use Rattle.rd_text.specs.Spelling.{Says};
ghost use Rattle.rd_script.specs.NextLine.{ReadsNext, Holds};

use arrayvec::ArrayVec;
use rd_devices::{ScriptFault, Source};
use rd_marks::Command;
use rd_text::{LineFault, MOST_LINE_BYTES, parse_command};

/// One line, without its line feed.
#[derive(Drop)]
pub struct Line {
    /// The bytes of the line, or the first 256 of them.
    pub kept: ArrayVec<u8, MOST_LINE_BYTES>,
    /// Whether the line has more bytes than are kept.
    pub is_too_long: bool,
}

/// What the reading of the next line found.
#[derive(Clone, Copy, Debug, PartialEq, Eq)]
pub enum Reading {
    /// A line that a line feed ended.
    Ended,
    /// A line of at least one byte that the end of the text ended.
    Last,
    /// No line, but the end of the text.
    End,
}

impl Line {
    /// Returns an empty line.
    pub fn new() -> Self
        ensures { Holds result [] }
    {
        Line {
            kept: ArrayVec::new(),
            is_too_long: false,
        }
    }

    /// Replaces the line by the next one of the source, and returns how that ended. The line is
    /// empty if there is no next one. The source must not have failed before.
    ///
    /// # Errors
    ///
    /// `Read` if the source failed, or gave 2^64 - 1 bytes without a line feed or the end; the line
    /// is then only what the source gave of it.
    pub fn read_next<S: Source>(&mut self, reader: &mut S) -> Result<Reading, ScriptFault>
        requires { S.has_failed reader.old ≡ false }
        ensures reads { ReadsNext (S.bytes reader.old) (S.bytes reader.new)
            (S.has_failed reader.new) self.new result }
        ensures works { OnOk result (S.has_failed reader.new ≡ false) }
    {
        self.clear();
        for length in 0..u64::MAX {
            match reader.next_byte()? {
                None if length == 0 => return Ok(Reading::End),
                None => return Ok(Reading::Last),
                Some(b'\n') => return Ok(Reading::Ended),
                Some(byte) => self.push(byte),
            }
        }
        Err(ScriptFault::Read)
    }

    /// Makes the line empty.
    fn clear(&mut self)
        ensures { Holds self.new [] }
    {
        self.kept.clear();
        self.is_too_long = false;
    }

    /// Puts a byte at the end of the line. If the line has 256 bytes already, the byte isn't kept,
    /// and the line is too long.
    fn push(&mut self, byte: u8)
        ensures { (text : List ℕ) → Holds self.old text → Holds self.new (text ++ byte ∷ []) }
    {
        if self.kept.is_full() {
            self.is_too_long = true;
        } else {
            self.kept.push(byte);
        }
    }

    /// Returns the command that the line spells.
    ///
    /// # Errors
    ///
    /// `LineTooLong` if the line has more than 256 bytes; otherwise those of `parse_command`.
    pub fn command(&self) -> Result<Command, LineFault>
        ensures { (text : List ℕ) → Holds self.now text → Says text result }
    {
        if self.is_too_long {
            return Err(LineFault::LineTooLong);
        }
        parse_command(self.kept.as_slice())
    }
}
