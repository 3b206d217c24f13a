//! Tests of calls that are refused memory, and of devices that fail: `trials` has what they share.

mod books;
mod command_lines;
mod desks;
mod devices;
mod indexes;
mod lists;
mod none_left;
mod traces;
mod trials;
mod viewers;
mod views;
mod worlds;
