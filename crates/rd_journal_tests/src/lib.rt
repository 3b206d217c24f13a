//! The tests of `rd_depend`, `rd_equivalence` and `rd_journal`, over their public calls: in a crate of
//! their own, since a crate with tests is proved twice.
#![tactic(auto)]

#[cfg(test)]
mod tests;
