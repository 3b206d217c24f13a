//! Undos and redos as commands: each calls the method of the session, and replies.

ghost use Rattle.std.specs.Prelude.{◌≡◌, Ok, Err, OnOk, IfErr};

use super::super::replies::Reply;
use super::Book;
use rd_cell::Refusal;

impl<const R: usize> Book<R> {
    ghost use Rattle.rd_marks.specs.Book.{book_state};
    ghost use Rattle.rd_marks.specs.Commands.{IsObeyed, step_counts};
    ghost use Rattle.rd_marks.specs.declared.commands.Command.TheVariants as command;

    /// Undoes the `k`-th live step alone, counted from 1. Returns how many steps are live and how
    /// many are undone afterwards.
    ///
    /// # Errors
    ///
    /// `NoSuchStep`, with the number of live steps, if `k` is 0 or above that number; `Depended`,
    /// with the number of the first live step that depends on the `k`-th, if there is one. Nothing
    /// has changed then.
    pub(super) fn answer_undo_at(&mut self, k: u64) -> Result<Reply, Refusal>
        ensures { IsObeyed (book_state self.old) (command.UndoAt k)
            (record { answer = result; state = book_state self.new }) }
    {
        self.session.undo_at(k)?;
        self.bookmarks
            .record_change_after(k.saturating_sub(1) as usize);
        Ok(self.step_counts())
    }

    /// Rolls back the `k`-th live step, counted from 1: undoes its causal closure. Returns how many
    /// steps are live and how many are undone afterwards.
    ///
    /// # Errors
    ///
    /// `NoSuchStep`, with the number of live steps, if `k` is 0 or above that number. Nothing has
    /// changed then.
    pub(super) fn answer_roll(&mut self, k: u64) -> Result<Reply, Refusal>
        ensures { IsObeyed (book_state self.old) (command.Roll k)
            (record { answer = result; state = book_state self.new }) }
    {
        self.session.roll(k)?;
        self.bookmarks
            .record_change_after(k.saturating_sub(1) as usize);
        Ok(self.step_counts())
    }

    /// Undoes the last `n` live steps. Returns how many steps are live and how many are undone
    /// afterwards.
    ///
    /// # Errors
    ///
    /// `NothingToUndo`, with the number of live steps, if fewer than `n` steps are live. Nothing
    /// has changed then.
    pub(super) fn answer_back(&mut self, n: u64) -> Result<Reply, Refusal>
        ensures { IsObeyed (book_state self.old) (command.Back n)
            (record { answer = result; state = book_state self.new }) }
    {
        let done = self.session.back(n);
        self.answer_to_move(done)
    }

    /// Makes the `n` steps again that were undone last. Returns how many steps are live and how
    /// many are undone afterwards.
    ///
    /// # Errors
    ///
    /// `NothingToRedo` if fewer than `n` steps are undone. Nothing has changed then.
    pub(super) fn answer_forward(&mut self, n: u64) -> Result<Reply, Refusal>
        ensures { IsObeyed (book_state self.old) (command.Forward n)
            (record { answer = result; state = book_state self.new }) }
    {
        let done = self.session.forward(n);
        self.answer_to_move(done)
    }

    /// Returns the answer to a move that was tried: the numbers of live and undone steps now, or
    /// the move's refusal.
    fn answer_to_move(&self, done: Result<(), Refusal>) -> Result<Reply, Refusal>
        ensures ok { OnOk done (result ≡ Ok (step_counts (book_state self.now).session)) }
        ensures err { IfErr done (λ refusal. result ≡ Err refusal) }
    {
        done?;
        Ok(self.step_counts())
    }
}
