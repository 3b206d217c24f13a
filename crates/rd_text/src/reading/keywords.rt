//! Keywords: the first word of a line determines which kind of command the line spells, and how the
//! words after it are read. Also the forms of lines, as a help text lists them.

ghost use Rattle.std.specs.Prelude.{◌≡◌, ◌≢◌, ◌≤◌, length, map, IfSome, IfNone};
ghost use Rattle.rd_text.specs.declared.reading.keywords.Keyword.{Keyword as Word};
ghost use Rattle.rd_text.specs.Grammar.{keyword_text};
ghost use Rattle.rd_text.specs.Reading.{ReadsCommand, ReadsCommandWithoutName};

use super::arguments::{
    actor_and_choice, actor_and_value, only_name, only_u8, only_u64, two_names, without_arguments,
};
use super::places::parse_place;
use crate::faults::LineFault;
use rd_marks::Command;

/// The end of a help text: the forms of lines in six rows, and where the manual is.
pub const FORMS: &str = "Lines of a script:\n  \
    calls      enq A X, deq A, aenq A X, adeq A\n  \
    steps      go A, starve A yes, starve A no\n  \
    undo       undo, undo K, roll K, back N, redo, forward N\n  \
    bookmarks  mark NAME, drop NAME, goto NAME, marks, markat I, same NAME NAME\n  \
    queries    show PLACE, writer PLACE, actor A, step K, origin K, len\n  \
    places     qhead, qtail, head M.S, tail M.S, next M.S, cell M.S I, value M.S I, index M.S I, whole M.S, ahead, atail, acell I\n\n\
    The manual is docs/MANUAL.md in the repository of lcrqdb";

/// The first word of a line.
#[derive(Clone, Copy, Debug, PartialEq, Eq)]
pub enum Keyword {
    /// `enq`
    Enq,
    /// `deq`
    Deq,
    /// `aenq`
    ArrayEnq,
    /// `adeq`
    ArrayDeq,
    /// `go`
    Go,
    /// `starve`
    Starve,
    /// `undo`
    Undo,
    /// `roll`
    Roll,
    /// `back`
    Back,
    /// `redo`
    Redo,
    /// `forward`
    Forward,
    /// `mark`
    Mark,
    /// `drop`
    Drop,
    /// `goto`
    Goto,
    /// `marks`
    Marks,
    /// `markat`
    MarkAt,
    /// `same`
    Same,
    /// `origin`
    Origin,
    /// `writer`
    Writer,
    /// `show`
    Show,
    /// `actor`
    Actor,
    /// `step`
    Step,
    /// `len`
    Len,
}

impl Keyword {
    /// All keywords; the most frequent ones in scripts come first.
    const ALL: [Keyword; 23] = [
        Keyword::Go,
        Keyword::Len,
        Keyword::Enq,
        Keyword::Deq,
        Keyword::Undo,
        Keyword::Redo,
        Keyword::Back,
        Keyword::Forward,
        Keyword::Roll,
        Keyword::Step,
        Keyword::Show,
        Keyword::Actor,
        Keyword::Starve,
        Keyword::Mark,
        Keyword::Goto,
        Keyword::Drop,
        Keyword::Same,
        Keyword::Origin,
        Keyword::Writer,
        Keyword::Marks,
        Keyword::MarkAt,
        Keyword::ArrayEnq,
        Keyword::ArrayDeq,
    ];

    /// Returns the keyword that a word is, or `None` if it is no keyword.
    pub fn of(word: &[u8]) -> Option<Keyword>
        ensures some { IfSome result (λ keyword. word.now ≡ keyword_text keyword) }
        ensures none { IfNone result ((keyword : Word) → word.now ≢ keyword_text keyword) }
    {
        for keyword in Keyword::ALL {
            if keyword.text() == word {
                return Some(keyword);
            }
        }
        None
    }

    /// Returns the word that spells the keyword, of at most 7 bytes.
    fn text(self) -> &'static [u8]
        ensures text { result.now ≡ keyword_text self }
        ensures len { length result.now ≤ 7 }
    {
        match self {
            Keyword::Enq => b"enq",
            Keyword::Deq => b"deq",
            Keyword::ArrayEnq => b"aenq",
            Keyword::ArrayDeq => b"adeq",
            Keyword::Go => b"go",
            Keyword::Starve => b"starve",
            Keyword::Undo => b"undo",
            Keyword::Roll => b"roll",
            Keyword::Back => b"back",
            Keyword::Redo => b"redo",
            Keyword::Forward => b"forward",
            Keyword::Mark => b"mark",
            Keyword::Drop => b"drop",
            Keyword::Goto => b"goto",
            Keyword::Marks => b"marks",
            Keyword::MarkAt => b"markat",
            Keyword::Same => b"same",
            Keyword::Origin => b"origin",
            Keyword::Writer => b"writer",
            Keyword::Show => b"show",
            Keyword::Actor => b"actor",
            Keyword::Step => b"step",
            Keyword::Len => b"len",
        }
    }

    /// Returns the command that the keyword and the words after it spell. Fails with `BadLine` or
    /// `BadName`, as `parse_command` does.
    #[tactic(auto, using(crate::proofs::NameReadLemmas::none_named))]
    pub fn command(self, words: &[&[u8]]) -> Result<Command, LineFault>
        ensures { ReadsCommand self (map (λ word. word.now) words.now) result }
    {
        match self {
            Keyword::Mark => Ok(Command::Mark(only_name(words)?)),
            Keyword::Drop => Ok(Command::DropMark(only_name(words)?)),
            Keyword::Goto => Ok(Command::GotoMark(only_name(words)?)),
            Keyword::Same => {
                let (one, other) = two_names(words)?;
                Ok(Command::Same(one, other))
            }
            _ => self.command_without_name(words).ok_or(LineFault::BadLine),
        }
    }

    /// Returns the command that the keyword and the words after it spell, if names of bookmarks
    /// don't follow it. `None` if they do, or if the words spell no command.
    fn command_without_name(self, words: &[&[u8]]) -> Option<Command>
        ensures { ReadsCommandWithoutName self (map (λ word. word.now) words.now) result }
    {
        Some(match self {
            Keyword::Go => Command::Go(only_u8(words)?),
            Keyword::Enq => {
                let (actor, value) = actor_and_value(words)?;
                Command::Enq(actor, value)
            }
            Keyword::Deq => Command::Deq(only_u8(words)?),
            Keyword::ArrayEnq => {
                let (actor, value) = actor_and_value(words)?;
                Command::ArrayEnq(actor, value)
            }
            Keyword::ArrayDeq => Command::ArrayDeq(only_u8(words)?),
            Keyword::Starve => {
                let (actor, choice) = actor_and_choice(words)?;
                Command::Starve(actor, choice)
            }
            Keyword::Undo if words.is_empty() => Command::Undo,
            Keyword::Undo => Command::UndoAt(only_u64(words)?),
            Keyword::Roll => Command::Roll(only_u64(words)?),
            Keyword::Back => Command::Back(only_u64(words)?),
            Keyword::Redo => without_arguments(words, Command::Redo)?,
            Keyword::Forward => Command::Forward(only_u64(words)?),
            Keyword::Marks => without_arguments(words, Command::Marks)?,
            Keyword::MarkAt => Command::MarkAt(only_u64(words)?),
            Keyword::Origin => Command::Origin(only_u64(words)?),
            Keyword::Writer => Command::Writer(parse_place(words)?),
            Keyword::Show => Command::Show(parse_place(words)?),
            Keyword::Actor => Command::Actor(only_u8(words)?),
            Keyword::Step => Command::Step(only_u64(words)?),
            Keyword::Len => without_arguments(words, Command::Len)?,
            Keyword::Mark | Keyword::Drop | Keyword::Goto | Keyword::Same => return None,
        })
    }
}
