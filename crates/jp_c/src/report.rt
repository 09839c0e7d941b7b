//! What C is told of an answer.

ghost use Rattle.std.specs.Prelude.{◌≡◌, length};
ghost use Rattle.jp_memory.specs.Answered.{answered_of};
ghost use Rattle.jp_c.specs.Told.{IsStopTold};

use crate::codes::{FAULTY_LINE, OK, line_code};
use jp_memory::Answered;

/// What C is told of an answer, besides its bytes.
#[repr(C)]
#[derive(Clone, Copy, Drop)]
pub struct Report {
    /// How many bytes the answer has.
    pub needed: usize,
    /// How many faulty lines it passes.
    pub faulty: u64,
    /// The number of the faulty line at which it ends, or 0.
    pub line: u64,
    /// What is wrong with that line, by its number (`line_code`), or 0.
    pub fault: u32,
}

impl Report {
    /// Of no answer.
    pub(crate) fn none() -> Report
        ensures { result ≡ record { needed = 0; faulty = 0; line = 0; fault = 0 } }
    {
        Report {
            needed: 0,
            faulty: 0,
            line: 0,
            fault: 0,
        }
    }

    /// Of an answer, with its status.
    pub(crate) fn of(answered: &Answered) -> (Report, u32)
        ensures needed { result.0.needed ≡ length answered.now.bytes.items }
        ensures faulty { result.0.faulty ≡ answered.now.faulty }
        ensures stopped { IsStopTold (answered_of answered.now).stopped result.1 result.0.line
            result.0.fault }
    {
        let (line, fault, status) = match &answered.stopped {
            Some(stop) => (stop.line, line_code(stop.fault), FAULTY_LINE),
            None => (0, 0, OK),
        };
        let report = Report {
            needed: answered.bytes.len(),
            faulty: answered.faulty,
            line,
            fault,
        };
        (report, status)
    }
}
