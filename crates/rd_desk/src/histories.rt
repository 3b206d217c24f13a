//! What the viewers asked: their calls, in the order in which the book did them.

ghost use Rattle.std.specs.Prelude.{◌≡◌, ◌<◌, ◌≤◌, length, vec_len, vec_capacity, OnOk, OnErr};

use rd_cell::Refusal;
use rd_marks::{Command, Reply};
use std::alloc::AllocError;

/// The greatest number of calls in a history.
pub const MOST_CALLS: usize = 100_000;

/// The number of calls for which a history's list has room after it has grown once.
const FIRST_ROOM: usize = 4;

/// One call: a command and the book's answer. It is plain data: copying it takes no memory.
#[derive(Clone, Copy, Debug, PartialEq, Eq)]
pub struct Call {
    /// The command.
    pub command: Command,
    /// The book's answer to it.
    pub answer: Result<Reply, Refusal>,
}

/// The calls of all viewers, in the order in which the book did them, each with the number of its
/// viewer.
#[derive(Drop)]
pub struct History {
    /// The number of the viewer and the call, for each call.
    pub(crate) entries: Vec<(u64, Call)>,
}

impl History {
    ghost use Rattle.rd_desk.specs.Histories.{entries, IsCapacity};
    ghost use Rattle.rd_step.specs.Lists.{numbered};

    /// Returns the number of calls in the history.
    pub fn len(&self) -> u64
        ensures { result ≡ length (entries self.now) }
    {
        self.entries.len() as u64
    }

    /// Returns the call of this number, counted from 1, with the number of its viewer. `None` if
    /// there is no such call.
    pub fn call(&self, number: u64) -> Option<(u64, Call)>
        ensures { result ≡ numbered (entries self.now) number }
    {
        if number == 0 {
            return None;
        }
        self.entries.get(number as usize - 1).copied()
    }

    /// Returns the calls in order, each with the number of its viewer.
    pub fn calls(&self) -> &[(u64, Call)]
        ensures { result.now ≡ entries self.now }
    {
        self.entries.as_slice()
    }

    /// Makes room for one more call, if there is none: the list grows by as many calls as it has,
    /// and at least by `FIRST_ROOM`. Fails only if memory is refused, and the list stays full then.
    /// The list must have room for no call, or for 4 times a power of 2, and so it has afterwards.
    pub(crate) fn make_room(&mut self) -> Result<(), AllocError>
        requires grown { IsCapacity (vec_capacity self.old.entries) }
        ensures grown { IsCapacity (vec_capacity self.new.entries) }
        ensures items { entries self.new ≡ entries self.old }
        ensures ok { OnOk result (vec_len self.new.entries < vec_capacity self.new.entries) }
        ensures err { OnErr result (vec_capacity self.old.entries ≤ vec_len self.old.entries) }
    {
        if self.entries.len() < self.entries.capacity() {
            return Ok(());
        }
        self.entries
            .reserve_exact(self.entries.len().max(FIRST_ROOM))
    }
}
