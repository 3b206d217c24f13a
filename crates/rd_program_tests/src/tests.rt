//! Traces; what the program does over devices in memory, and how it ends; what command lines ask
//! for, and what comes of them.

mod command_lines;
mod ends;
mod lives;
mod loads;
mod outcomes;
mod plays;
mod trace;
mod views;
