//! Laws that show that the headline is about something: a session that it holds of, that the
//! definitions leave one answer to each command, and sessions that have room.
//!
//! No code is here, and no crate uses this one.
#![tactic(auto)]

pub mod laws;
