//! Patterns of I-Regexp (RFC 9485): what they are, their limits, and which texts they match.
#![tactic(auto)]

pub mod laws;

pub use jp_automaton::{CompileBudget, Pattern, Question, Terms};
