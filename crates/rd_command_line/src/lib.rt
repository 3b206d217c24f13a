//! The command line of the program: `clap` reads its words, and `run_command_line` does what they
//! ask for, over files and streams.
//!
//! `main` gives `run_command_line` the words, the three streams, the files, threads that can be
//! waited for, and the allocator, and nothing else. So a caller of `run_command_line` with other
//! streams sees all that the program does.
#![tactic(auto)]

mod answering;
mod outcomes;
mod terminals;

pub use answering::{follow_words, run_command_line};
pub use outcomes::{Outcome, show_outcome};
pub use rd_options::{Options, OptionsFault, command_line_words, not_utf8_fault, options};
