//! What the words of a command line ask for: `clap` reads them, and `options` returns what they give,
//! or why they give nothing.
#![tactic(auto)]

mod command_line;
mod names;
mod requests;

pub use command_line::{command_line_words, not_utf8_fault, options};
pub use names::REPLIES_ENDING;
pub use requests::{Options, OptionsFault};
