//! Why a view was not written whole.

ghost use Rattle.std.specs.Prelude.{◌≡◌};
ghost use Rattle.rd_view.specs.declared.faults.ViewFault.TheVariants.{NoMemory};

use rd_desk::Busy;
use std::alloc::AllocError;

/// Why a view was not written whole.
#[derive(Clone, Copy, Debug, PartialEq, Eq)]
pub enum ViewFault {
    /// 20: memory was refused. Nothing was written.
    NoMemory,
    /// 25: the writer failed or took nothing. A beginning of the text was written.
    Write,
    /// 30: the desk could not be closed; with the two words of its lock, which differ. Nothing was
    /// written.
    Busy(Busy),
}

impl From<AllocError> for ViewFault {
    ghost from_gives = { λ error fault. fault ≡ NoMemory };

    /// Returns `NoMemory`, the fault for refused memory.
    fn from(_: AllocError) -> ViewFault {
        ViewFault::NoMemory
    }
}
