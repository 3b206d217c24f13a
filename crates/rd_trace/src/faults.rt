//! Why a trace isn't loaded, or isn't written.

ghost use Rattle.std.specs.Prelude.{◌≡◌};

use rd_cell::Refusal;
use rd_step::Flaw;
use std::alloc::AllocError;

/// Why a text gives no book, or why a trace isn't written whole. The numbers are those of the
/// refusals in a report. Loading never fails with `Write`; writing fails only with `NoMemory` or
/// `Write`.
#[derive(Clone, Copy, Debug, PartialEq, Eq)]
pub enum TraceFault {
    /// 20: memory was refused. Nothing was written.
    NoMemory,
    /// 25: the sink failed. It took a beginning of the text.
    Write,
    /// 26: the text is a trace, but its start is no well-formed world; with the first condition
    /// that fails.
    Flawed(Flaw),
    /// 27: the text is no trace of version 1 or 2 over rings of 2, 4 or 8 cells.
    BadTrace,
    /// 28: the text is a trace, but one of its live events, or of its undone ones after them, is
    /// refused.
    TraceStep {
        /// The number of the first event that is refused, from 1. The undone events are numbered
        /// after the live ones.
        step: u64,
        /// Why it is refused.
        cause: Refusal,
    },
    /// 32: the text is a trace, but an event of one of its bookmarks is refused.
    TraceMark {
        /// The number of the first such bookmark, from 1.
        mark: u64,
        /// The number of the first of its events that is refused, from 1.
        step: u64,
        /// Why it is refused.
        cause: Refusal,
    },
}

impl From<AllocError> for TraceFault {
    ghost use Rattle.rd_trace.specs.declared.faults.TraceFault.TheVariants.{NoMemory};

    ghost from_gives = { λ _ fault. fault ≡ NoMemory };

    /// Returns `NoMemory`, the fault for refused memory.
    fn from(_error: AllocError) -> TraceFault {
        TraceFault::NoMemory
    }
}
