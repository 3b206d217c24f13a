//! One user's debugger: a session with bookmarks, and each of its commands as a value.
//!
//! A book is seen as its session's state and a list of marks, each a name and the events that were
//! live when it was set. No other crate knows how a mark is kept.
#![tactic(auto)]

mod any_book;
mod bookmarks;
mod books;
mod commands;
pub mod laws;
mod names;
mod replies;
mod rings;
mod stretches;

pub use any_book::AnyBook;
pub use books::Book;
pub use commands::Command;
pub use names::MarkName;
pub use replies::{EventReply, Reply};
pub use rings::Ring;
