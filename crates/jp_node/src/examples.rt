//! Worked examples of the definitions.

mod nodes;
mod parts;
mod paths;
mod places;
