//! The lines of answers. The contract of a function that appends words to a text of fixed capacity
//! (`put_..`, `end_line`) states which words they are, and mostly how many bytes they have at most:
//! n in the clause `PutsUpTo n`. It promises to append them only if the text has room for all of
//! them; without room, some or all are left out, and no fault tells so. Clauses `len` bound words
//! that are returned or appended. A function that replaces the text (`set_..`) always has room.

mod actors;
pub mod commands;
mod contents;
mod events;
pub mod headings;
pub mod lines;
mod numbers;
mod places;
mod refusals;
mod replies;
mod steps;
pub mod texts;
