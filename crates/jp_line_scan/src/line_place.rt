//! Where a scan of a line stands.

use crate::line_reason::ValueWord;

/// An array or an object that is open.
#[derive(Clone, Copy)]
pub(crate) enum Container {
    Array,
    Object,
}

/// The characters of a number so far (RFC 8259, 6).
#[derive(Clone, Copy)]
pub(crate) enum Digits {
    Minus,
    /// `0`, at the front.
    Zero,
    /// Digits at the front.
    Whole,
    Point,
    /// Digits behind the point.
    Fraction,
    /// The `e`.
    Letter,
    /// The sign behind it.
    Sign,
    /// Digits behind these.
    Exponent,
}

/// A number that has begun.
#[derive(Clone, Copy)]
pub(crate) struct LineNumber {
    pub(crate) digits: Digits,
    pub(crate) start: usize,
}

/// Where a scan stands in quotes.
#[derive(Clone, Copy)]
pub(crate) enum Within {
    Bare,
    /// Behind a backslash.
    Escape,
    /// Behind so many hexadecimal digits, which come to that.
    Unit { count: u8, value: u32 },
}

/// A text that has begun.
#[derive(Clone, Copy)]
pub(crate) struct LineText {
    pub(crate) is_name: bool,
    pub(crate) within: Within,
    /// Where its first quote stands.
    pub(crate) start: usize,
    /// Where the last escape begins.
    pub(crate) escape: usize,
    /// Where the escape of the first half of a character begins, whose second half has to follow.
    pub(crate) half: Option<usize>,
}

/// A word that has begun.
#[derive(Clone, Copy)]
pub(crate) struct LineWord {
    pub(crate) literal: ValueWord,
    /// How many of its letters are behind.
    pub(crate) read: usize,
}

/// Where the scan stands.
#[derive(Clone, Copy)]
pub(crate) enum LinePlace {
    /// Where a value has to begin.
    Value,
    /// Behind `[`.
    FirstItem,
    /// Behind `{`.
    FirstName,
    /// Behind a comma of an object.
    Name,
    /// Behind a name.
    Colon,
    /// Behind a value.
    Behind,
    Text(LineText),
    Number(LineNumber),
    Word(LineWord),
}
