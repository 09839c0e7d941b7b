//! The answer to a collection of documents, one on a line or one behind another: from the bytes that come in
//! to those that go out.
#![tactic(auto)]

mod answering;
mod answers;
mod beside;
mod buffers;
mod cutting;
mod ends;
mod examples;
mod fault;
mod fronts;
mod gathering;
mod input;
mod job;
pub mod laws;
mod limits;
mod nowhere;
mod outcome;
mod output;
mod prepared;
mod running;
mod sending;
mod settings;
mod settling;
mod std_ends;
mod stream;
mod telling;
mod turns;
mod writing;

pub use answers::{answer, answer_all};
pub use buffers::Buffers;
pub use cutting::Cutting;
pub use ends::{Broken, Sink, Source, Supply};
pub use fault::RunFault;
pub use jp_answer::{DocStop, Gate, OpenGate};
pub use nowhere::Nowhere;
pub use outcome::{Answer, Whole};
pub use output::Output;
pub use prepared::Prepared;
pub use running::{Totals, run};
pub use settings::Settings;
pub use std_ends::{FromReader, FromWriter};
pub use writing::write_all;
