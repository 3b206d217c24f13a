//! A conversation: each line of a source is answered, and its answer is written, before the next
//! line is read. A run of a script is one, and so is what a viewer does that is there at once.

ghost use Rattle.std.specs.Prelude.{◌≡◌, ℕ, List, false};
ghost use Rattle.rd_script.specs.Conversation.{AreAnswered, Converses};
ghost use Rattle.rd_script.specs.NextLine.{Holds};
ghost use Rattle.rd_devices.specs.Streams.{devices};

use super::lines::{Line, Reading};
use rd_devices::{ScriptFault, Sink, Source, write_all};
use rd_text::Text;

/// What answers lines one after another, such as a book.
pub trait Answerer {
    /// An answer to a line.
    type Answer;

    // A line can be answered; so it is after each line.
    ghost can_answer: { Self → Type 0 };

    // The line of an answer, with its line feed.
    ghost text_of: { Self.Answer → List ℕ };

    // What the contract states of a line: from what answers before it, the line, its answer and
    // what answers after it.
    ghost answers: { Self → List ℕ → Self.Answer → Self → Type 0 };

    /// Answers a line, and replaces the text by the line of its answer. It must be able to answer.
    fn answer(&mut self, line: &Line, text: &mut Text)
        requires ready { can_answer self.old }
        ensures ready { can_answer self.new }
        ensures answers { (bytes : List ℕ) → Holds line.now bytes
            → (given : Self.Answer) × answers self.old bytes given self.new
            × (text.new.items ≡ text_of given) };
}

/// Reads the lines of a source to the end, has each answered when it is complete, and writes its
/// answer at once. Returns the number of lines. Neither the reader nor the writer may have failed
/// before, and lines can be answered.
///
/// # Errors
///
/// `Read` if the reader failed, or gave 2^64 - 1 bytes without an end; each line that a line feed
/// ended was then answered, and the rest was not. `Write` if the writer failed or took nothing; the
/// line whose answer it did not take whole was then answered, and no later line.
pub fn converse<S: Source, K: Sink, A: Answerer>(
    reader: &mut S,
    writer: &mut K,
    answerer: &mut A,
) -> Result<u64, ScriptFault>
    requires reader_works { S.has_failed reader.old ≡ false }
    requires writer_works { K.has_failed writer.old ≡ false }
    requires ready { A.can_answer answerer.old }
    ensures converses { Converses A.text_of
        (λ lines answers. AreAnswered A.answers answerer.old lines answers answerer.new)
        (devices S.Source K.Sink reader.old reader.new writer.old writer.new) result }
    ensures ready { A.can_answer answerer.new }
{
    let mut line = Line::new();
    let mut text = Text::new();
    for done in 0..u64::MAX {
        let is_last = match line.read_next(reader)? {
            Reading::End => return Ok(done),
            Reading::Last => true,
            Reading::Ended => false,
        };
        answerer.answer(&line, &mut text);
        write_all(writer, text.as_slice())?;
        if is_last {
            return Ok(done + 1);
        }
    }
    Err(ScriptFault::Read)
}
