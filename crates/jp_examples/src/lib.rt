//! The examples of the crates' READMEs, each in a module of its own, as the README has it.
#![tactic(auto)]

mod answer;
mod automaton;
mod board;
mod buffer;
mod check;
mod compiled;
mod doc;
mod documents;
mod eval;
mod examples;
mod explain;
mod field;
mod flat;
mod flat_nodes;
mod found;
mod line_scan;
mod memory;
mod node;
mod number;
mod output;
mod path;
mod pattern;
mod program;
mod query_scan;
mod quote;
mod regexp;
mod run;
mod select;
mod syntax;
mod tokens;
mod tree;
mod types;
mod value;
