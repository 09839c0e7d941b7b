//! What the command `jp` does, over any source, any sink and any place for notes.
#![tactic(auto)]

mod advice;
mod command;
mod command_line;
mod counting;
mod each;
mod examples;
mod file_notes;
mod filter_advice;
mod inputs;
mod laws;
mod line;
mod output;
mod pattern_notes;
mod peer_options;
mod quoting;
mod split;
mod turn;
mod version;
mod witness;

pub use command::{program, refuse_words, tell};
pub use inputs::Inputs;
