//! What a step of the simulation reads.

/// The active positions before a step, in rising order, and the character that it reads.
#[derive(Clone, Copy)]
pub struct StepInput<'a> {
    pub active: &'a [u32],
    pub c: char,
}

/// How many copies of an expression there are: `{least,most}`.
#[derive(Clone, Copy)]
pub struct Copies {
    pub least: u32,
    pub most: u32,
}
