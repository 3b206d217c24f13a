//! The answer to one line, and the type of all refusals.

use super::faults::LineFault;
use rd_cell::Refusal;
use rd_devices::ScriptFault;
use rd_marks::Reply;
use rd_step::Flaw;

/// The answer to one line: a reply, or a refusal.
pub type LineAnswer = Result<Reply, AnyRefusal>;

/// Any refusal: it has a number, and a line of text.
#[derive(Clone, Copy, Debug, PartialEq, Eq)]
pub enum AnyRefusal {
    /// 1 to 20: a command was refused.
    Refused(Refusal),
    /// 17, 22 or 23: a line spells no command.
    Unread(LineFault),
    /// 24 or 25: a device failed, and a run stopped.
    Stopped(ScriptFault),
    /// 26: parts make no world.
    Flawed(Flaw),
    /// 21: the history takes no more calls.
    HistoryFull,
    /// 27: a text is no trace.
    BadTrace,
    /// 28: a live event of a trace, or an undone one after them, was refused.
    TraceStep {
        /// The event's number in the trace, from 1. The undone events are numbered after the live
        /// ones.
        step: u64,
        /// Why it was refused.
        cause: Refusal,
    },
    /// 29: no more tickets can be drawn.
    TicketsEnded,
    /// 30: another viewer holds the desk, or waits for it.
    Busy {
        /// The ticket that is drawn next.
        next: u64,
        /// The ticket that is served.
        served: u64,
    },
    /// 31: memory for the history was refused, and the command was not obeyed.
    NotRecorded,
    /// 32: an event of a bookmark of a trace was refused.
    TraceMark {
        /// The bookmark's number in the trace, from 1.
        mark: u64,
        /// The event's number among the bookmark's, from 1.
        step: u64,
        /// Why it was refused.
        cause: Refusal,
    },
}
