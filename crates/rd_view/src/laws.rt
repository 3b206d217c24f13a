//! The law of a history that is run again: the contract of a function that does nothing.

ghost use Rattle.std.specs.Prelude.{ℕ, List, map};
ghost use Rattle.std.specs.List.{AllByRecursion};
ghost use Rattle.rd_journal.specs.Journal.{Journal};
ghost use Rattle.rd_marks.specs.BookState.{BookState};
ghost use Rattle.rd_desk.specs.declared.histories.Call.{Call};
ghost use Rattle.rd_desk.specs.Histories.{CallsLeadTo};
ghost use Rattle.rd_script.specs.Answers.{AreObeyedLines, line_answer};
ghost use Rattle.rd_text.specs.Lines.{lines_of};
ghost use Rattle.rd_view.specs.Reports.{SpellsItsCommand, script_text};

use rd_text::laws::lines_of_commands_say_them;

/// One script of the calls of a legal history, run over the opened book, may get just the answers
/// that the history records, and leave the book that the history left: `run` promises
/// `AreObeyedLines` of the lines that it reads, and this is so of these lines with these answers.
/// Only a refusal of memory is not determined by the commands.
pub fn a_history_is_a_run_of_its_script()
    ensures { (opened last : BookState) (kept : Journal) (es : List (ℕ × Call))
        → AllByRecursion SpellsItsCommand es → CallsLeadTo opened es last kept
        → AreObeyedLines opened (lines_of (script_text es))
        (map (λ e. line_answer e.1.answer) es) last kept }
{
    lines_of_commands_say_them();
}
