//! Tests of calls that are refused memory, and of runs over devices that fail.
//!
//! There is nothing here except tests. Each passes whichever one allocation is refused to it: a
//! call that answers NoMemory has changed nothing, and made again it answers as ever. The gate runs
//! them with ample memory; `tools/check.py refused_memory` at the top of the repository runs each
//! of them once for each allocation that it makes, which is refused.
#![tactic(auto)]

#[cfg(test)]
mod tests;
