//! Worked examples of the definitions.

mod feeding;
mod lines;
mod locations;
mod numbers;
mod reading;
mod trees;
mod values;
