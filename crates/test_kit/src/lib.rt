//! What several crates of tests share: events that are drawn, read from a text or written by hand,
//! entries and parts of worlds, lines of each command, long scripts, and devices that fail.
//!
//! There is no test here. What a caller's proof needs of a call is in its contract.
#![tactic(auto)]

mod commands;
mod devices;
mod drawn;
mod schedules;
mod scripts;
mod worlds;

pub use commands::{ASKED, KINDS, NEARLY};
pub use devices::{BrokenWriter, End, Limit, LimitedReader, LimitedWriter};
pub use drawn::{drawn_event, next_random};
pub use schedules::{event_and_times, events_in};
pub use scripts::{long_script, scripts_as_bytes};
pub use worlds::{access_entry, go, one_actor_parts};
