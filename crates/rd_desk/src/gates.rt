//! What viewers ask: a desk, or another type in its place (a gate).

ghost use Rattle.rd_marks.specs.declared.commands.Command.{Command};
ghost use Rattle.rd_desk.specs.Histories.{Answer};

use super::desks::{Desk, DeskPass};
use rd_cell::Refusal;
use rd_lock::Busy;
use rd_marks::{Command, Reply};
use std::sync::Wait;

/// Why a desk refused a call, so that its book didn't do the command.
#[derive(Clone, Copy, Debug, PartialEq, Eq)]
pub enum DeskRefusal {
    /// 21: the history has `MOST_CALLS` calls.
    HistoryFull,
    /// 31: memory for one more call in the history was refused.
    NotRecorded,
    /// 29: all tickets of the lock are drawn.
    TicketsEnded,
    /// 30: the lock isn't free; with its two words, which differ. Only `try_ask` returns it.
    Busy(Busy),
}

/// The answer to a viewer's call: the book's answer to the command, or the desk's refusal.
pub type Answer = Result<Result<Reply, Refusal>, DeskRefusal>;

/// The answer to a viewer's call with the call's number in the history, from 1; or the desk's
/// refusal, which no call has.
pub type NumberedAnswer = Result<(u64, Result<Reply, Refusal>), DeskRefusal>;

/// Something that viewers can ask, each with its own pass.
pub trait Gate {
    /// A viewer's right to ask.
    type Pass: Send + Drop;

    /// The pass is one with which this gate can be asked.
    ghost takes: { Self → Self.Pass → Type 0 };

    /// What the gate's contract states of a call: from the pass before, the command, the answer and
    /// the pass after.
    ghost told: { Self → Self.Pass → Command → Answer → Self.Pass → Type 0 };

    /// Asks one command and returns the answer. It may wait. The pass must be one that the gate
    /// takes. The implementing type says which refusals it returns.
    fn ask<R: Wait>(&self, rt: &R, pass: &mut Self::Pass, command: Command) -> Answer
        requires own { takes self.now pass.old }
        ensures own { takes self.now pass.new }
        ensures told { told self.now pass.old command result pass.new };
}

impl<const N: usize> Gate for Desk<N> {
    ghost use Rattle.rd_desk.specs.Desks.{opened_state, IsViewerOf};
    ghost use Rattle.rd_desk.specs.Asking.{KnowsAfterAsk};

    type Pass = DeskPass<N>;

    ghost takes = { λ desk pass. IsViewerOf desk pass };

    ghost told = { λ desk pass command answer after. KnowsAfterAsk (opened_state desk) pass after command answer };

    /// Asks one command as `Desk::ask` does, with the same refusals.
    fn ask<R: Wait>(&self, rt: &R, pass: &mut DeskPass<N>, command: Command) -> Answer {
        Desk::ask(self, rt, pass, command)
    }
}
