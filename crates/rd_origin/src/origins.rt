//! The origin of a taken value, as plain data.

/// Where a value that was taken came from. The numbers of steps are counted from 1.
#[derive(Clone, Copy, Debug, PartialEq, Eq)]
pub struct Origin {
    /// The number of the step that began the enqueue which put the value; none if the call began
    /// before the start, or if there is no put.
    pub call: Option<u64>,
    /// The number of the step that put the value into its cell or slot; none if the value was there
    /// at the start.
    pub put: Option<u64>,
    /// The number of the step that took the value.
    pub take: u64,
}
