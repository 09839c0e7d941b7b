//! The answer to a collection of lines, by 1 to 64 workers that claim blocks of them.
#![tactic(auto)]

mod answerer;
mod answering;
mod asked;
mod beside;
mod block;
mod crew;
mod examples;
mod faults;
mod filtered;
mod gate;
mod gathered;
pub mod laws;
mod limits;
mod lists;
mod on_fault;
mod outcome;
mod policy;
mod queue;
mod ring;
mod task;
mod walking;

pub use answerer::Answerer;
pub use asked::Asked;
pub use beside::beside_workers;
pub use block::Block;
pub use crew::Crew;
pub use faults::line_fault;
pub use gate::{Gate, OpenGate};
pub use lists::answer_by_workers;
pub use on_fault::OnFault;
pub use outcome::{DocStop, Outcome};
pub use policy::LinePolicy;
pub use queue::{Queue, Sent};
pub use ring::Ring;
pub use task::Task;
