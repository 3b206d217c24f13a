//! The run of a script over a book.
//!
//! `lines` reads a line from a device of `rd_devices`. `conversation` has each line answered when it
//! is complete, and writes its answer at once; `script` runs a script so. `rd_text` says what a line
//! spells, and makes the line of an answer. Lines and replies are kept in buffers of fixed capacity,
//! so no memory is taken except by the commands themselves.
#![tactic(auto)]

mod conversation;
mod lines;
mod script;
mod writing;

pub use conversation::{Answerer, converse};
pub use lines::Line;
pub use script::{run, run_any_book};
pub use writing::write_answer;
