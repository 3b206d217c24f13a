//! The tests of the simulated machine, from words to inverses, over the public calls of its crates.
//! A crate with tests is proved twice, so tests have their own.
#![tactic(auto)]

#[cfg(test)]
mod actor;
#[cfg(test)]
mod cell;
#[cfg(test)]
mod equal;
#[cfg(test)]
mod inverse;
#[cfg(test)]
mod ring;
#[cfg(test)]
mod segments;
#[cfg(test)]
mod world;
