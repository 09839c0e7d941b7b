//! How lines are read, and what is done where one is faulty.

use crate::on_fault::OnFault;
use jp_number::Numbers;

/// How lines are read, and what is done where one is faulty.
#[derive(Clone, Copy, Debug, PartialEq, Eq, Drop)]
pub struct LinePolicy {
    /// Which numbers a document may have.
    pub numbers: Numbers,
    /// What is done where a line is faulty.
    pub on_fault: OnFault,
}
