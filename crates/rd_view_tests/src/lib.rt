//! The tests of `rd_lock`, `rd_desk` and `rd_view`, over their public calls: in a crate of their own,
//! since a crate with tests is proved twice.
#![tactic(auto)]

#[cfg(test)]
mod tests;
