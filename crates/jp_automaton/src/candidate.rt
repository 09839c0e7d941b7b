//! Characters that may be equivalent.

/// What may be one class: two characters, or all that are not of ASCII.
#[derive(Clone, Copy)]
pub enum Candidate {
    Both(char, char),
    PastAscii,
}
