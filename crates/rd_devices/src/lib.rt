//! Where bytes come from and where they go.
//!
//! A source gives one byte or the end, and a sink takes one or more bytes of a slice. Each has, for
//! contracts alone, its bytes, if they are known, and whether it has failed. One that has failed
//! must not be called again. A call that a signal interrupts is made again and is no fault, for a
//! reader as for a writer, unless 2^64 - 1 interruptions come one after another. Any other error is
//! a fault.
//!
//! Only tests show that a source fails only if its reader does, and a sink only if its writer does.
//! Of an error, std's `Read` and `Write` state only that known bytes stay as they were. They state
//! the same of a device that wasn't called, so no clause can say that one has failed.
#![tactic(auto)]

mod faults;
mod portions;
mod sinks;
mod sources;

pub use faults::ScriptFault;
pub use sinks::{Sink, WriteSink, write_all};
pub use sources::{ReadSource, Source};
