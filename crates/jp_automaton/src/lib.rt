//! How an I-Regexp (RFC 9485) is matched: by simulation of its position automaton, or by a DFA that is made
//! of it ahead of time.
#![tactic(auto)]

mod beginnings;
mod byte_classes;
mod byte_flags;
mod byte_sets;
mod candidate;
mod classes;
mod cursor;
mod determinize;
mod dfa;
mod dfa_input;
mod equivalence;
mod examples;
mod exit;
mod expressions;
mod letters;
mod limits;
mod pattern;
mod prefilter;
mod question;
mod ranges;
mod signatures;
mod step;
mod step_input;
mod step_sets;
mod terms;
mod work;

pub use pattern::Pattern;
pub use question::Question;
pub use terms::Terms;
pub use work::CompileBudget;
