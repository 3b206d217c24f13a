//! Runs of scripts, and texts that are written, over devices that end at a call of a given number.

mod runs;
mod texts;
