//! A script: each line is read, obeyed and answered before the next one is read.

ghost use Rattle.std.specs.Prelude.{◌≡◌, false};
ghost use Rattle.rd_journal.specs.Sessions.{journal};
ghost use Rattle.rd_marks.specs.AnyBook.{any_journal, any_state};
ghost use Rattle.rd_marks.specs.Book.{book_state, session_of};
ghost use Rattle.rd_devices.specs.Streams.{devices};
ghost use Rattle.rd_text.specs.Replies.{answer_text};
ghost use Rattle.rd_script.specs.Script.{BookAnswers, RunsScript};

use super::conversation::{Answerer, converse};
use super::lines::Line;
use rd_devices::{ScriptFault, Sink, Source};
use rd_marks::{AnyBook, Book};
use rd_text::{AnyRefusal, LineAnswer, Text, set_refusal, set_reply};

/// Runs a script over a book: reads its lines to the end, obeys each when it is complete and writes
/// its answer at once. Returns the number of lines. Neither the reader nor the writer may have
/// failed before.
///
/// This is where the headline is promised of the program: the clause `runs` states it of the
/// commands that the lines spell and of their answers, whether the run comes to the end or stops at
/// a fault.
///
/// # Errors
///
/// `Read` if the reader failed, or gave 2^64 - 1 bytes without an end; each line that a line feed
/// ended was then obeyed and answered, and the rest was not obeyed. `Write` if the writer failed or
/// took nothing; the line whose answer it did not take whole was then obeyed, and no later line.
pub fn run<S: Source, K: Sink, const R: usize>(
    reader: &mut S,
    writer: &mut K,
    book: &mut Book<R>,
) -> Result<u64, ScriptFault>
    requires reader_works { S.has_failed reader.old ≡ false }
    requires writer_works { K.has_failed writer.old ≡ false }
    ensures runs { RunsScript (book_state book.old) (book_state book.new)
        (journal (session_of book.new))
        (devices S.Source K.Sink reader.old reader.new writer.old writer.new) result }
    ensures start { (book_state book.new).session.start ≡ (book_state book.old).session.start }
{
    converse(reader, writer, book)
}

/// Runs a script over a book whose ring is known only when the program runs, as `run` does.
///
/// # Errors
///
/// Those of `run`.
pub fn run_any_book<S: Source, K: Sink>(
    reader: &mut S,
    writer: &mut K,
    book: &mut AnyBook,
) -> Result<u64, ScriptFault>
    requires reader_works { S.has_failed reader.old ≡ false }
    requires writer_works { K.has_failed writer.old ≡ false }
    ensures runs { RunsScript (any_state book.old) (any_state book.new) (any_journal book.new)
        (devices S.Source K.Sink reader.old reader.new writer.old writer.new) result }
    ensures start { (any_state book.new).session.start ≡ (any_state book.old).session.start }
{
    match book {
        AnyBook::Two(book) => run(reader, writer, book),
        AnyBook::Four(book) => run(reader, writer, book),
        AnyBook::Eight(book) => run(reader, writer, book),
    }
}

impl<const R: usize> Answerer for Book<R> {
    type Answer = LineAnswer;

    ghost can_answer = { λ book. Unit {0} };

    ghost text_of = { λ answer. answer_text answer };

    ghost answers = { λ old line answer new. BookAnswers old line answer new };

    /// Obeys a line, if it spells a command, and replaces the text by the line of its answer, which
    /// may be a refusal. A refused command changes nothing in the book. If the line spells none, the
    /// answer is the refusal of its fault, and the book stays as it is.
    fn answer(&mut self, line: &Line, text: &mut Text) {
        match line.command() {
            Err(fault) => set_refusal(text, &AnyRefusal::Unread(fault)),
            Ok(command) => match self.obey(command) {
                Err(refusal) => set_refusal(text, &AnyRefusal::Refused(refusal)),
                Ok(reply) => set_reply(text, &reply),
            },
        }
    }
}
