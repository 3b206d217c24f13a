//! Why the program ends without having done all that it was asked, and the refusal that it then
//! shows.

ghost use Rattle.std.specs.Prelude.{◌≡◌};
ghost use Rattle.rd_program.specs.declared.faults.ProgramFault.TheVariants.{NoMemory, Script, Trace, View};
ghost use Rattle.rd_program.specs.Endings.{refusal_of, trace_refusal, view_refusal};

use rd_cell::Refusal;
use rd_devices::ScriptFault;
use rd_text::AnyRefusal;
use rd_trace::TraceFault;
use rd_view::ViewFault;
use std::alloc::AllocError;
use thiserror::Error;

/// Why the program ends without having done all that it was asked.
#[derive(Clone, Copy, Debug, Error)]
pub enum ProgramFault {
    /// Memory for a fresh world, a text or the command line was refused.
    #[error("memory was refused")]
    NoMemory,
    /// A file can't be opened or read.
    #[error("a file can't be read")]
    Read,
    /// The run of a script stopped: the script could not be read, or an answer not written.
    #[error("the script stopped: {0:?}")]
    Script(ScriptFault),
    /// A trace was not loaded, or not written whole.
    #[error("the trace was not loaded or written: {0:?}")]
    Trace(TraceFault),
    /// A view was not written whole.
    #[error("the view was not written: {0:?}")]
    View(ViewFault),
}

impl ProgramFault {
    /// Returns the refusal that the program shows for this fault.
    pub fn refusal(self) -> AnyRefusal
        ensures { result ≡ refusal_of self }
    {
        match self {
            ProgramFault::NoMemory => AnyRefusal::Refused(Refusal::NoMemory),
            ProgramFault::Read => AnyRefusal::Stopped(ScriptFault::Read),
            ProgramFault::Script(fault) => AnyRefusal::Stopped(fault),
            ProgramFault::Trace(fault) => trace_refusal(fault),
            ProgramFault::View(fault) => view_refusal(fault),
        }
    }
}

/// Returns the refusal that the program shows for a trace that was not loaded, or not written
/// whole.
fn trace_refusal(fault: TraceFault) -> AnyRefusal
    ensures { result ≡ trace_refusal fault }
{
    match fault {
        TraceFault::NoMemory => AnyRefusal::Refused(Refusal::NoMemory),
        TraceFault::Write => AnyRefusal::Stopped(ScriptFault::Write),
        TraceFault::Flawed(flaw) => AnyRefusal::Flawed(flaw),
        TraceFault::BadTrace => AnyRefusal::BadTrace,
        TraceFault::TraceStep { step, cause } => AnyRefusal::TraceStep { step, cause },
        TraceFault::TraceMark { mark, step, cause } => AnyRefusal::TraceMark { mark, step, cause },
    }
}

/// Returns the refusal that the program shows for a view that was not written whole.
fn view_refusal(fault: ViewFault) -> AnyRefusal
    ensures { result ≡ view_refusal fault }
{
    match fault {
        ViewFault::NoMemory => AnyRefusal::Refused(Refusal::NoMemory),
        ViewFault::Write => AnyRefusal::Stopped(ScriptFault::Write),
        ViewFault::Busy(words) => AnyRefusal::Busy {
            next: words.next,
            served: words.served,
        },
    }
}

impl From<AllocError> for ProgramFault {
    ghost from_gives = { λ error fault. fault ≡ NoMemory };

    /// Returns `NoMemory`, the fault for refused memory.
    fn from(_: AllocError) -> ProgramFault {
        ProgramFault::NoMemory
    }
}

impl From<ScriptFault> for ProgramFault {
    ghost from_gives = { λ fault e. e ≡ Script fault };

    /// Returns `Script`, with the fault that stopped the run.
    fn from(fault: ScriptFault) -> ProgramFault {
        ProgramFault::Script(fault)
    }
}

impl From<TraceFault> for ProgramFault {
    ghost from_gives = { λ fault e. e ≡ Trace fault };

    /// Returns `Trace`, with the reason why the trace was not loaded or not written whole.
    fn from(fault: TraceFault) -> ProgramFault {
        ProgramFault::Trace(fault)
    }
}

impl From<ViewFault> for ProgramFault {
    ghost from_gives = { λ fault e. e ≡ View fault };

    /// Returns `View`, with the reason why the view was not written whole.
    fn from(fault: ViewFault) -> ProgramFault {
        ProgramFault::View(fault)
    }
}
