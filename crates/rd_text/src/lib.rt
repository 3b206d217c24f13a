//! The text of lines and replies: the lines that spell commands, and the lines of the answers to
//! them.
//!
//! `reading` finds the command that a line spells, and `writing` puts the line of an answer together
//! in a buffer of fixed capacity, so neither takes memory. The commands of a whole text come as a
//! list, which takes memory. `rd_script` reads lines from devices, and writes answers to them.
#![tactic(auto)]

mod answers;
mod faults;
pub mod laws;
mod reading;
mod writing;

pub use answers::{AnyRefusal, LineAnswer};
pub use faults::LineFault;
pub use reading::commands::{MOST_LINE_BYTES, parse_command};
pub use reading::keywords::FORMS;
pub use reading::whole_texts::{ParsedLine, lines, spelled_commands};
pub use writing::commands::set_call;
pub use writing::headings::{Heading, set_heading};
pub use writing::lines::{
    set_answer, set_numbered_answer, set_refusal, set_reply, set_viewer_refusal,
};
pub use writing::texts::Text;
