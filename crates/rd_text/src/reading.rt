//! What lines spell. A line is read into a buffer and cut into words. The first word is its
//! keyword, which determines how the others are read.

mod arguments;
pub mod commands;
pub mod keywords;
mod numbers;
mod places;
pub mod whole_texts;
mod words;
