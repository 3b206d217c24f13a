//! The tests of searches, and of a book where lines of text can't say them. Lists of commands with
//! their answers, and how many nodes bookmarks take, are scripts in the tests of rd_script.

mod ends;
mod limits;
mod long_runs;
mod marked;
mod origins;
mod sharing;
mod writers;
