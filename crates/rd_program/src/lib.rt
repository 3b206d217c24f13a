//! The program without its command line: what it does over the devices that it is given, and how it
//! ends.
//!
//! `fresh_book` opens a book over a fresh world, and `load_book` the book of a trace. `play` runs a
//! script over a book, and writes the trace of the session after the report if it is asked for.
//! `view_book` runs several scripts over one book, each by its own viewer; `view_live` lets viewers
//! work on one book who are there at once. `read_whole_text` reads a trace or a script whole. From
//! how the program's work ended, `show_program_fault` makes the exit status, and writes the lines of
//! faults to standard error.
#![tactic(auto)]

mod endings;
mod faults;
mod live;
mod program;
mod setups;
mod viewers;

pub use endings::show_program_fault;
pub use faults::ProgramFault;
pub use live::view_live;
pub use program::{fresh_book, load_book, play, read_whole_text};
pub use setups::{Done, Left, Setup, ViewExtras};
pub use viewers::view_book;
