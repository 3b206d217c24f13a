//! The line that spells a command.

ghost use Rattle.std.specs.Prelude.{◌≡◌, ◌≤◌, ◌++◌, length, None, Ok};
ghost use Rattle.rd_marks.specs.Events.{as_event};
ghost use Rattle.rd_marks.specs.Names.{bytes_of};
ghost use Rattle.rd_text.specs.Puts.{Puts, PutsUpTo};
ghost use Rattle.rd_text.specs.Calls.{call_text};
ghost use Rattle.rd_text.specs.Spelling.{IsInRange, Says, place_words, spelling};

use super::events::put_event;
use super::lines::end_line;
use super::numbers::{put_number, put_words_and_number};
use super::places::put_place;
use super::replies::put_mark_name;
use super::texts::{Text, put};
use rd_cell::Place;
use rd_marks::{Command, MarkName};

/// Replaces the text by the line of a recorded call: the number of its viewer, a space, and the
/// line that spells its command, with its line feed. That line is read as the command again.
pub fn set_call(text: &mut Text, viewer: u64, command: &Command)
    ensures text { text.new.items ≡ call_text viewer command.now }
    ensures reads_back { Says (spelling command.now) (Ok command.now) }
{
    check_range(*command);
    text.clear();
    put_number(text, viewer);
    put(text, b" ");
    put_command(text, command);
    end_line(text);
}

/// Appends to the text the one line that spells a command, without a line feed.
pub fn put_command(text: &mut Text, command: &Command)
    ensures { PutsUpTo 75 text.old.items text.new.items (spelling command.now) }
{
    match command.as_event() {
        Some(event) => put_event(text, event),
        None => put_other_command(text, command),
    }
}

/// Appends to the text the line that spells a command, without a line feed; nothing if the command
/// makes an event happen.
fn put_other_command(text: &mut Text, command: &Command)
    requires { as_event command.now ≡ None }
    ensures { PutsUpTo 75 text.old.items text.new.items (spelling command.now) }
{
    match *command {
        Command::Undo => put(text, b"undo"),
        Command::UndoAt(step) => put_words_and_number(text, b"undo", step),
        Command::Roll(step) => put_words_and_number(text, b"roll", step),
        Command::Back(count) => put_words_and_number(text, b"back", count),
        Command::Redo => put(text, b"redo"),
        Command::Forward(count) => put_words_and_number(text, b"forward", count),
        Command::Mark(name) => put_words_and_mark(text, b"mark ", name),
        Command::DropMark(name) => put_words_and_mark(text, b"drop ", name),
        Command::GotoMark(name) => put_words_and_mark(text, b"goto ", name),
        Command::Marks => put(text, b"marks"),
        Command::MarkAt(number) => put_words_and_number(text, b"markat", number),
        Command::Same(one, other) => {
            put_words_and_mark(text, b"same ", one);
            put_words_and_mark(text, b" ", other);
        }
        Command::Origin(step) => put_words_and_number(text, b"origin", step),
        Command::Writer(place) => put_words_and_place(text, b"writer ", place),
        Command::Show(place) => put_words_and_place(text, b"show ", place),
        Command::Actor(actor) => put_words_and_number(text, b"actor", u64::from(actor)),
        Command::Step(step) => put_words_and_number(text, b"step", step),
        Command::Len => put(text, b"len"),
        Command::Enq(..)
        | Command::Deq(_)
        | Command::ArrayEnq(..)
        | Command::ArrayDeq(_)
        | Command::Go(_)
        | Command::Starve(..) => {}
    }
}

/// Appends to the text these words and a bookmark's name, with no space between them.
fn put_words_and_mark(text: &mut Text, words: &[u8], name: MarkName)
    ensures words { Puts text.old.items text.new.items (words.now ++ bytes_of name) }
    ensures len { length (bytes_of name) ≤ 16 }
{
    put(text, words);
    put_mark_name(text, name);
}

/// Appends to the text these words and the words of a place, with no space between them.
fn put_words_and_place(text: &mut Text, words: &[u8], place: Place)
    ensures words { Puts text.old.items text.new.items (words.now ++ place_words place) }
    ensures len { length (place_words place) ≤ 68 }
{
    put(text, words);
    put_place(text, place);
}

/// Does nothing. Each number of a command is in its range, and each name is one that a bookmark can
/// have: their types say so.
fn check_range(command: Command)
    ensures { IsInRange command }
{
    let _command = command;
}
