//! Why a script's run stops besides its end: a device that fails.

/// Why a run over a script stopped. A source fails only with `Read`, and a sink only with `Write`.
#[derive(Clone, Copy, Debug, PartialEq, Eq)]
pub enum ScriptFault {
    /// 24: the script could not be read.
    Read,
    /// 25: an answer could not be written.
    Write,
}
