//! Bookmarks of a book: the methods on them, and the commands, each of which calls its method and
//! replies.

ghost use Rattle.std.specs.Prelude.{◌≡◌, ◌<◌, ◌≤◌, ◌⊎◌, length, Ok, Err, OnOk, OnErr, IfErr, IsOk};
ghost use Rattle.rd_marks.specs.Bookmarks.{stretches_in};
ghost use Rattle.rd_marks.specs.Stretches.{entry_count};

use super::super::names::MarkName;
use super::super::replies::Reply;
use super::Book;
use rd_cell::Refusal;
use rd_cell::limits::MOST_MARKS;
use rd_step::Event;

impl<const R: usize> Book<R> {
    ghost use Rattle.rd_marks.specs.Prefixes.{CountsPrefixes, NeedsNoEntry};
    ghost use Rattle.rd_marks.specs.Book.{book_state, name_room, MayRefuseIfGoto};
    ghost use Rattle.rd_marks.specs.BookState.{events_by_name, mark, drop_mark, goto_mark, mark_at, mark_event, GotoMakesSteps, AnswersSame};
    ghost use Rattle.rd_marks.specs.Commands.{IsObeyed, SetsMarkWithoutMemory};
    ghost use Rattle.rd_marks.specs.Rules.{KeepsRules};
    ghost use Rattle.rd_marks.specs.declared.commands.Command.TheVariants as command;

    /// Sets a bookmark of this name at the live steps, as the last one in the list of bookmarks.
    ///
    /// # Errors
    ///
    /// In this order: `MarkTaken` if a bookmark has this name; `TooManyMarks` if there are
    /// `MOST_MARKS`; `NoMemory` if memory for its entries or its name was refused. `NoMemory` can't
    /// happen if there is room for another name and either no step is live or some bookmark's steps
    /// begin with the live ones. A refusal changes nothing.
    pub fn mark(&mut self, name: MarkName) -> Result<(), Refusal>
        ensures ok { OnOk result (mark (book_state self.old) name ≡ Ok (book_state self.new)) }
        ensures err { IfErr result (λ refusal. (mark (book_state self.old) name ≡ Err refusal)
            ⊎ ((refusal ≡ Refusal.NoMemory) × IsOk (mark (book_state self.old) name))) }
        ensures succeeds { IsOk (mark (book_state self.old) name) → 0 < name_room self.old
            → NeedsNoEntry (book_state self.old).marks (book_state self.old).session.live
            → IsOk result }
        ensures unchanged { OnErr result (book_state self.new ≡ book_state self.old) }
    {
        if self.bookmarks.find(&name).is_some() {
            return Err(Refusal::MarkTaken);
        }
        if self.bookmarks.len() == MOST_MARKS {
            return Err(Refusal::TooManyMarks);
        }
        match self.bookmarks.set(self.alloc, &self.session, name) {
            Err(_) => Err(Refusal::NoMemory),
            Ok(()) => Ok(()),
        }
    }

    /// Drops the bookmark of this name. The others keep their order. It takes no memory, and the
    /// room for names doesn't shrink.
    ///
    /// # Errors
    ///
    /// `NoMark` if no bookmark has this name. Nothing has changed then.
    pub fn drop_mark(&mut self, name: MarkName) -> Result<(), Refusal>
        ensures ok { OnOk result (drop_mark (book_state self.old) name ≡ Ok (book_state self.new)) }
        ensures err { IfErr result (λ refusal. drop_mark (book_state self.old) name ≡ Err refusal) }
        ensures room { name_room self.old ≤ name_room self.new }
        ensures unchanged { OnErr result (book_state self.new ≡ book_state self.old) }
    {
        if self.bookmarks.remove(&name) {
            Ok(())
        } else {
            Err(Refusal::NoMark)
        }
    }

    /// Makes the steps of this bookmark the live ones, and leaves no undone step. The steps with
    /// which both lists begin stay. The other live steps are undone, and the rest of the bookmark's
    /// steps are made again.
    ///
    /// # Errors
    ///
    /// In this order: `NoMark` if no bookmark has this name; `NoMemory` if memory was refused for
    /// the steps that are made again, or for a copy of their entries if these lie in more than one
    /// stretch. `NoMemory` can't happen if the live steps begin with the bookmark's. A refusal
    /// changes nothing.
    pub fn goto_mark(&mut self, name: MarkName) -> Result<(), Refusal>
        ensures ok { OnOk result (goto_mark (book_state self.old) name ≡ Ok (book_state self.new)) }
        ensures err { IfErr result (λ refusal. (goto_mark (book_state self.old) name ≡ Err refusal)
            ⊎ ((refusal ≡ Refusal.NoMemory) × GotoMakesSteps (book_state self.old) name)) }
        ensures memory { IfErr result (MayRefuseIfGoto self.old (command.GotoMark name)) }
        ensures unchanged { OnErr result (book_state self.new ≡ book_state self.old) }
    {
        let Some(node) = self.bookmarks.find(&name) else {
            return Err(Refusal::NoMark);
        };
        self.bookmarks.go_to(self.alloc, &mut self.session, node)
    }

    /// Returns whether the steps of two bookmarks are causally equivalent: the two lists differ
    /// only in the order of independent steps. Equivalent lists lead to the same world.
    ///
    /// # Errors
    ///
    /// `NoMark` if one of the bookmarks doesn't exist; `NoMemory` if memory for the comparison was
    /// refused, which never happens if one list begins the other.
    pub fn same(&self, one: MarkName, other: MarkName) -> Result<bool, Refusal>
        ensures { AnswersSame (book_state self.now).session.start
            (events_by_name (book_state self.now).marks one)
            (events_by_name (book_state self.now).marks other) result }
    {
        let Some(one) = self.bookmarks.find(&one) else {
            return Err(Refusal::NoMark);
        };
        let Some(other) = self.bookmarks.find(&other) else {
            return Err(Refusal::NoMark);
        };
        match self.bookmarks.are_nodes_equivalent(self.alloc, one, other) {
            Err(_) => Err(Refusal::NoMemory),
            Ok(same) => Ok(same),
        }
    }

    /// Returns the number of bookmarks, at most `MOST_MARKS`. Their names are different, and the
    /// events of each can run from the session's start.
    pub fn marks(&self) -> u64
        ensures count { result ≡ length (book_state self.now).marks }
        ensures rules { KeepsRules (book_state self.now) }
    {
        self.bookmarks.len() as u64
    }

    /// Returns the number of different lists, except the empty one, that begin the steps of some
    /// bookmark. The book keeps this many entries for its bookmarks. It takes no memory.
    pub fn nodes(&self) -> u64
        ensures counts { CountsPrefixes (book_state self.now).marks result }
        ensures entries { result ≡ entry_count (stretches_in self.now.bookmarks) }
    {
        self.bookmarks.kept_entry_count() as u64
    }

    /// Returns the name of the bookmark of this number, counted from 1, and the number of steps
    /// that were live when it was set.
    ///
    /// # Errors
    ///
    /// `NoMark` if `i` is not from 1 to the number of bookmarks.
    pub fn mark_at(&self, i: u64) -> Result<(MarkName, u64), Refusal>
        ensures { result ≡ mark_at (book_state self.now) i }
    {
        if i == 0 {
            return Err(Refusal::NoMark);
        }
        match self.bookmarks.at(i as usize - 1) {
            None => Err(Refusal::NoMark),
            Some((name, node)) => Ok((name, node.number as u64)),
        }
    }

    /// Returns event `n` of bookmark `i`, both counted from 1, or `None` if there is no such
    /// bookmark or event. It takes no memory, and looks at each stretch at most once. To read all
    /// events, use `mark_events`.
    pub fn mark_event(&self, i: u64, n: u64) -> Option<Event>
        ensures { result ≡ mark_event (book_state self.now) i n }
    {
        if i == 0 {
            return None;
        }
        match self.bookmarks.at(i as usize - 1) {
            None => None,
            Some((_, node)) => self.bookmarks.event_at(node, n),
        }
    }

    /// Sets a bookmark of this name at the live steps, and replies with their number. Fails as
    /// `mark` does, and has then changed nothing.
    pub(super) fn answer_mark(&mut self, name: MarkName) -> Result<Reply, Refusal>
        ensures answer { IsObeyed (book_state self.old) (command.Mark name)
            (record { answer = result; state = book_state self.new }) }
        ensures succeeds { SetsMarkWithoutMemory (book_state self.old) (name_room self.old)
            (command.Mark name) → IsOk result }
    {
        self.mark(name)?;
        Ok(Reply::Marked(self.session.len()))
    }

    /// Drops the bookmark of this name, and replies that it was dropped. Fails with `NoMark` if no
    /// bookmark has this name, and has then changed nothing.
    pub(super) fn answer_drop_mark(&mut self, name: MarkName) -> Result<Reply, Refusal>
        ensures { IsObeyed (book_state self.old) (command.DropMark name)
            (record { answer = result; state = book_state self.new }) }
    {
        self.drop_mark(name)?;
        Ok(Reply::Dropped)
    }

    /// Makes the steps of the bookmark of this name the live ones, and replies with the numbers of
    /// live and undone steps then. Fails as `goto_mark` does, and has then changed nothing.
    #[tactic(auto, using(rd_step::proofs::PassedUp::error_passed_up))]
    pub(super) fn answer_goto_mark(&mut self, name: MarkName) -> Result<Reply, Refusal>
        ensures answer { IsObeyed (book_state self.old) (command.GotoMark name)
            (record { answer = result; state = book_state self.new }) }
        ensures memory { IfErr result (MayRefuseIfGoto self.old (command.GotoMark name)) }
    {
        self.goto_mark(name)?;
        Ok(self.step_counts())
    }
}
