//! The tests of `rd_trace`, `rd_program` and `rd_command_line`, over their public calls: in a crate of
//! their own, since a crate with tests is proved twice.
#![tactic(auto)]

#[cfg(test)]
mod tests;
