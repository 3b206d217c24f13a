//! Viewers: scripts that several threads run over one desk, and the text of the answers to each
//! script; and viewers that are there at once, each at its own terminal.
#![tactic(auto)]

mod faults;
pub mod laws;
mod live;
mod reports;
mod tasks;
mod viewing;

pub use faults::ViewFault;
pub use live::{LiveEnd, Terminal, ViewerEnd, run_live};
pub use reports::{put_history, text_of_view};
pub use viewing::{Viewed, run_scripts, view_scripts};
