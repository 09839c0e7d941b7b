//! How C asks for an answer.

ghost use Rattle.std.specs.Prelude.{◌≡◌};
ghost use Rattle.jp_c.specs.Options as by;

use jp_answer::OnFault;
use jp_number::Numbers;
use jp_run::{Cutting, Output};

/// How an input is answered. Zero throughout is what the command does without options.
#[repr(C)]
#[derive(Clone, Copy, Drop)]
pub struct Options {
    /// The number of the input's first line, or document over lines: 4,294,967,295 at most. 0 is taken as 1.
    pub first: u64,
    /// What is written: 0 for lines of nodes, 1 for values, 2 for texts, 3 for raw texts, 4 for input lines.
    pub form: u32,
    /// Not 0: JSON texts stand one behind another over any number of lines. 0: one stands on each line.
    pub documents: u32,
    /// Not 0: documents and literals may have every number of JSON. 0: whole numbers alone.
    pub decimals: u32,
    /// Not 0: the answer says so where a line is faulty, and goes on. 0: it ends before it.
    pub keep_going: u32,
    /// Not 0: there is a filter. 0: its bytes are not read.
    pub has_filter: u32,
}

/// Which numbers documents and literals may have.
pub(crate) fn numbers_by(decimals: u32) -> Numbers
    ensures { result ≡ by.numbers_by decimals }
{
    if decimals == 0 {
        Numbers::Whole
    } else {
        Numbers::Decimals
    }
}

/// How the input is cut.
pub(crate) fn cutting_by(documents: u32) -> Cutting
    ensures { result ≡ by.cutting_by documents }
{
    if documents == 0 {
        Cutting::Lines
    } else {
        Cutting::Documents
    }
}

/// What is done where a line is faulty.
pub(crate) fn on_fault_by(keep_going: u32) -> OnFault
    ensures { result ≡ by.on_fault_by keep_going }
{
    if keep_going == 0 {
        OnFault::Stop
    } else {
        OnFault::KeepGoing
    }
}

/// The form that is named so, if there is one.
pub(crate) fn form_named(form: u32) -> Option<Output>
    ensures { result ≡ by.form_named form }
{
    match form {
        0 => Some(Output::Nodes),
        1 => Some(Output::Values),
        2 => Some(Output::Texts),
        3 => Some(Output::Raw),
        4 => Some(Output::Lines),
        _ => None,
    }
}
