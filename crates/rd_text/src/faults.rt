//! What a line has that spells no command.

/// Why a line spells no command.
#[derive(Clone, Copy, Debug, PartialEq, Eq)]
pub enum LineFault {
    /// 22: the line is not as the grammar requires.
    BadLine,
    /// 23: the line has more bytes than a line may have.
    LineTooLong,
    /// 17: a name in the line is not one that a bookmark can have.
    BadName,
}
