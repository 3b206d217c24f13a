//! The simulated actors: their words, and the table of control points, which decides an actor's
//! next access and how it goes on.
//!
//! The table is our profile of the pseudo-code of LCRQ (Morrison and Afek 2013), one row for each
//! control point. Neither function of the table sees a world: `need` names the one access of a
//! step, and `after` takes what it answered.
#![tactic(auto)]

mod actors;
mod points;
mod table;
mod words;

pub use actors::{Act, Actor, Op, OpReply, Pc};
pub use table::{after, need};
