//! The reply to a command that is not refused.

use super::names::MarkName;
use rd_actor::{Actor, OpReply};
use rd_cell::Content;
use rd_origin::Origin;
use rd_step::Entry;

/// The reply to an event that happened. It is plain data: copying it takes no memory.
#[derive(Clone, Copy, Debug, PartialEq, Eq)]
pub struct EventReply {
    /// The number of its step, the last live one.
    pub step: u64,
    /// The result of the call that the step ended, or `None` if it ended no call.
    pub reply: Option<OpReply>,
}

/// The reply to a command. It is plain data: copying it takes no memory.
#[derive(Clone, Copy, Debug, PartialEq, Eq)]
pub enum Reply {
    /// An event happened.
    Applied {
        /// The number of its step, the last live one.
        step: u64,
        /// The result of the call that the step ended, or `None` if it ended no call.
        reply: Option<OpReply>,
    },
    /// The numbers of live and undone steps, after a move or when asked for.
    At {
        /// The number of live steps.
        live: u64,
        /// The number of undone steps.
        undone: u64,
    },
    /// A bookmark was set at this many live steps.
    Marked(u64),
    /// A bookmark was dropped.
    Dropped,
    /// The number of bookmarks.
    Marks(u64),
    /// One bookmark of the list.
    Mark {
        /// Its name.
        name: MarkName,
        /// The number of steps that were live when it was set.
        len: u64,
    },
    /// Whether the steps of two bookmarks are causally equivalent.
    Same(bool),
    /// The origin of a value that was taken.
    Origin(Origin),
    /// The number of the last live step that wrote a place, or `None` if none did.
    Writer(Option<u64>),
    /// The content of a place.
    Content(Content),
    /// The record of an actor.
    Actor(Actor),
    /// A live step.
    Step {
        /// Its number, from 1.
        number: u64,
        /// Its entry.
        entry: Entry,
    },
}
