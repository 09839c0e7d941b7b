//! What is done where a line is faulty.

/// What is done where a line is faulty.
#[derive(Clone, Copy, Debug, PartialEq, Eq, Drop)]
pub enum OnFault {
    /// The answer ends before it.
    Stop,
    /// The answer says so, counts it, and goes on.
    KeepGoing,
}
