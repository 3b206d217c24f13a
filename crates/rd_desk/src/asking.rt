//! The calls of a desk: how a viewer asks a command.
//!
//! A call takes the lock, lets the book do the command, records the command with its answer, and
//! puts the book back. It takes effect where it puts the book back, with the one fetch-and-add on
//! the lock's word `served`.

ghost use Rattle.std.specs.Prelude.{◌≡◌, ◌^◌, Err, IfErr, IfOk};
ghost use Rattle.rd_lock.specs.Locks.{number, seen, next_seen, IsPassOf, IsTaken};
ghost use Rattle.rd_desk.specs.Desks.{opened_state, viewers, IsViewerOf};
ghost use Rattle.rd_desk.specs.Asking.{KnowsAfterAsk, KnowsAfterCall, IsLastCall, IsRefusalOfAsk, without_number};

use super::desks::{Desk, DeskPass};
use super::gates::{Answer, DeskRefusal, NumberedAnswer};
use super::recording::BookWithHistory;
use rd_lock::TryTakeError;
use rd_marks::Command;
use std::sync::Wait;

impl<const R: usize> Desk<R> {
    ghost use Rattle.rd_desk.specs.declared.gates.DeskRefusal.TheVariants.{TicketsEnded};

    /// Asks one command as `ask_numbered` does, with the same refusals, and returns the book's
    /// answer alone.
    ///
    /// # Errors
    ///
    /// Those of `ask_numbered`.
    pub fn ask<W: Wait>(&self, rt: &W, pass: &mut DeskPass<R>, command: Command) -> Answer
        requires own { IsViewerOf self.now pass.old }
        ensures own { IsViewerOf self.now pass.new }
        ensures outcome { KnowsAfterAsk (opened_state self.now) pass.old pass.new command result }
    {
        without_number(self.ask_numbered(rt, pass, command))
    }

    /// Asks one command. Returns the number of this call in the history, from 1, and the book's
    /// answer, which may be a refusal. It waits for the viewers that drew a ticket before. The pass
    /// must be one of this desk, and in no call.
    ///
    /// # Errors
    ///
    /// `TicketsEnded` if this pass saw that all tickets of the lock are drawn. Otherwise, in this
    /// order: `HistoryFull` if the history has `MOST_CALLS` calls; `NotRecorded` if its list is
    /// full and memory for a longer one was refused. The book doesn't do the command then.
    pub fn ask_numbered<W: Wait>(
        &self,
        rt: &W,
        pass: &mut DeskPass<R>,
        command: Command,
    ) -> NumberedAnswer
        requires own { IsViewerOf self.now pass.old }
        ensures own { IsViewerOf self.now pass.new }
        ensures outcome { KnowsAfterAsk (opened_state self.now) pass.old pass.new command
            (without_number result) }
        ensures number { IfOk result (IsLastCall (seen pass.new) (number pass.old) command) }
    {
        match self.lock.take(rt, pass) {
            Ok(kept) => self.obey_and_put_back(pass, kept, command),
            Err(_) => Err(DeskRefusal::TicketsEnded),
        }
    }

    /// Asks one command if the lock is free, and returns the book's answer, which may be a refusal.
    /// It never waits. The pass must be one of this desk, and in no call.
    ///
    /// # Errors
    ///
    /// In this order: `TicketsEnded` if this pass saw that all tickets of the lock are drawn;
    /// `Busy` if at some moment of the call the lock isn't free, which never happens at a desk of
    /// one viewer; `HistoryFull` and `NotRecorded` as for `ask`. The book doesn't do the command
    /// then.
    pub fn try_ask(&self, pass: &mut DeskPass<R>, command: Command) -> Answer
        requires own { IsViewerOf self.now pass.old }
        ensures own { IsViewerOf self.now pass.new }
        ensures outcome { KnowsAfterCall (opened_state self.now) pass.old pass.new command result }
        ensures ended { next_seen pass.old ≡ 2 ^ 63 → result ≡ Err TicketsEnded }
        ensures succeeds { viewers self.now ≡ 1 → IfErr result IsRefusalOfAsk }
    {
        match self.lock.try_take(pass) {
            Ok(kept) => without_number(self.obey_and_put_back(pass, kept, command)),
            Err(TryTakeError::Busy(words)) => Err(DeskRefusal::Busy(words)),
            Err(TryTakeError::TicketsEnded) => Err(DeskRefusal::TicketsEnded),
        }
    }

    /// Lets the book do the command, records the call, puts the book back into the lock, and
    /// returns the call's number and the book's answer. The pass must be one of this desk and hold
    /// the lock, and `kept` must be what it took from there, unchanged. Fails with `HistoryFull` or
    /// `NotRecorded` if the call can't be recorded; the book doesn't do the command then, and is put
    /// back too.
    fn obey_and_put_back(
        &self,
        pass: &mut DeskPass<R>,
        mut kept: BookWithHistory<R>,
        command: Command,
    ) -> NumberedAnswer
        requires own { IsPassOf self.now.lock pass.old }
        requires taken { IsTaken self.now.lock pass.old pass.old kept }
        ensures own { IsViewerOf self.now pass.new }
        ensures outcome { KnowsAfterCall (opened_state self.now) pass.old pass.new command
            (without_number result) }
        ensures number { IfOk result (IsLastCall (seen pass.new) (number pass.old) command) }
        ensures never_busy { IfErr result IsRefusalOfAsk }
    {
        let answer = kept.obey_and_record(pass.number(), &command);
        let calls = kept.history.len();
        self.lock.put_back(pass, kept);
        with_number(calls, answer)
    }
}

/// Returns the answer to the call of this number, with the number if the desk didn't refuse it.
fn with_number(number: u64, answer: Answer) -> NumberedAnswer
    ensures answer { without_number result ≡ answer }
    ensures number { IfOk result (λ call. call.0 ≡ number) }
{
    Ok((number, answer?))
}

/// Returns the answer to a call without the call's number.
fn without_number(numbered: NumberedAnswer) -> Answer
    ensures { result ≡ without_number numbered }
{
    let (_, answer) = numbered?;
    Ok(answer)
}
