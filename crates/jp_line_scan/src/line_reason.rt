//! What is to be said of a place in a line: what might have stood there, which rule is broken there, or which
//! number is not whole or over the limits.

use std::fmt;

/// What is to be said of a mark in a line.
#[derive(Debug, PartialEq, Eq, Drop)]
pub enum LineReason {
    /// The line is right up to the mark, and something else had to stand there.
    Expected(LineExpected),
    /// The line ends at the mark, and something had to stand there.
    Ended(LineExpected),
    /// What stands at the mark breaks a rule.
    Rule(LineRule),
    /// The number that begins at the mark is not whole.
    NotWhole(NotWhole),
    /// The number that begins at the mark is over the limits.
    LongNumber(LongNumber),
}

/// A number that is not whole: a fraction, one with an exponent, `-0`, or one of more than 64 bits.
#[derive(Debug, PartialEq, Eq, Drop)]
pub struct NotWhole {
    /// The normalized path of the number (RFC 9535, 2.7).
    pub path: String,
    /// How many bytes of the line stand before the end of the number, whose text begins at the mark.
    pub end: usize,
}

/// A number of over 1,000 digits, or of over 9 digits in its exponent.
#[derive(Debug, PartialEq, Eq, Drop)]
pub struct LongNumber {
    /// The normalized path of the number (RFC 9535, 2.7).
    pub path: String,
    /// How many bytes of the line stand before the end of the number, whose text begins at the mark.
    pub end: usize,
}

/// A value that is a word (RFC 8259, 3).
#[derive(Clone, Copy, Debug, PartialEq, Eq)]
pub enum ValueWord {
    /// `true`.
    True,
    /// `false`.
    False,
    /// `null`.
    Null,
}

/// What might have stood at the mark (RFC 8259, 2 to 7).
#[derive(Clone, Copy, Debug, PartialEq, Eq)]
pub enum LineExpected {
    /// A value.
    Value,
    /// The first item of an array, or its end.
    FirstItem,
    /// What follows an item.
    ItemEnd,
    /// The first name of an object, or its end.
    FirstName,
    /// A name behind a comma.
    Name,
    /// What follows a name.
    Colon,
    /// What follows a member.
    MemberEnd,
    /// The end of the line, behind its document.
    End,
    /// The rest of this word.
    Rest(ValueWord),
    /// A digit.
    Digit,
    /// What follows the `e` of a number.
    Exponent,
    /// What follows `\` in a text.
    Escape,
    /// A hexadecimal digit.
    HexDigit,
}

/// A rule for lines.
#[derive(Clone, Copy, Debug, PartialEq, Eq)]
pub enum LineRule {
    /// A byte order mark begins no document (RFC 8259, 8.1).
    ByteOrderMark,
    /// This control character stands in a text as an escape alone (RFC 8259, 7).
    Control(u8),
    /// One half of a surrogate pair is no character (RFC 8259, 8.2).
    HalfPair,
    /// The bytes are UTF-8 (RFC 8259, 8.1).
    Utf8,
    /// No digit follows a `0` that begins a number (RFC 8259, 6).
    LeadingZero,
    /// A number is none that a float can be, if it is no whole one (RFC 8259, 6).
    TooLarge,
    /// The same, of a number over the limits of decimals: over 1,000 digits, or over 9 in its exponent.
    TooLong,
    /// Arrays and objects are nested 127 deep at most (RFC 8259, 9).
    TooDeep,
    /// A text ends before the line does (RFC 8259, 7).
    TextEnd,
}

impl ValueWord {
    /// The word.
    pub fn text(self) -> &'static str {
        match self {
            ValueWord::True => "true",
            ValueWord::False => "false",
            ValueWord::Null => "null",
        }
    }
}

impl LineExpected {
    fn words(self) -> &'static str {
        match self {
            LineExpected::Value => "a value",
            LineExpected::FirstItem => "a value or ]",
            LineExpected::ItemEnd => ", or ]",
            LineExpected::FirstName => "a name in quotes or }",
            LineExpected::Name => "a name in quotes",
            LineExpected::Colon => ":",
            LineExpected::MemberEnd => ", or }",
            LineExpected::End => "the end: one document stands on a line",
            LineExpected::Rest(ValueWord::True) => "the rest of true",
            LineExpected::Rest(ValueWord::False) => "the rest of false",
            LineExpected::Rest(ValueWord::Null) => "the rest of null",
            LineExpected::Digit => "a digit",
            LineExpected::Exponent => "a digit, + or -",
            LineExpected::Escape => "\", \\, /, b, f, n, r, t or u: there is no such escape",
            LineExpected::HexDigit => "a hexadecimal digit",
        }
    }
}

impl fmt::Display for LineExpected {
    fn fmt<W: fmt::Write>(&self, f: &mut fmt::Formatter<W>) -> fmt::Result {
        write!(f, "expected {}", self.words())
    }
}

impl LineRule {
    fn words(self) -> &'static str {
        match self {
            LineRule::ByteOrderMark => "a byte order mark: the line begins with its document",
            LineRule::Control(_) => "a control character in a text",
            LineRule::HalfPair => "half of a surrogate pair",
            LineRule::Utf8 => "no UTF-8",
            LineRule::LeadingZero => "a digit behind a leading 0",
            LineRule::TooLarge | LineRule::TooLong => "a number beyond what a float can be",
            LineRule::TooDeep => "nested over 127 deep",
            LineRule::TextEnd => "the line ends within a text",
        }
    }
}

impl fmt::Display for LineRule {
    fn fmt<W: fmt::Write>(&self, f: &mut fmt::Formatter<W>) -> fmt::Result {
        let words = self.words();
        match self {
            LineRule::Control(0x08) => write!(f, "{words}: write \\b"),
            LineRule::Control(b'\t') => write!(f, "{words}: write \\t"),
            LineRule::Control(b'\n') => write!(f, "{words}: write \\n"),
            LineRule::Control(0x0c) => write!(f, "{words}: write \\f"),
            LineRule::Control(b'\r') => write!(f, "{words}: write \\r"),
            LineRule::Control(byte) => write!(f, "{words}: write \\u{byte:04x}"),
            _ => write!(f, "{words}"),
        }
    }
}

impl LineReason {
    /// The path of the number that is not whole or over the limits, and where it ends.
    pub fn number(&self) -> Option<(&str, usize)> {
        match self {
            LineReason::NotWhole(number) => Some((number.path.as_str(), number.end)),
            LineReason::LongNumber(number) => Some((number.path.as_str(), number.end)),
            _ => None,
        }
    }
}

/// The words for the mark, or, where the reason is a number, those behind it.
impl fmt::Display for LineReason {
    fn fmt<W: fmt::Write>(&self, f: &mut fmt::Formatter<W>) -> fmt::Result {
        match self {
            LineReason::Expected(expected) => write!(f, "{expected}"),
            LineReason::Ended(expected) => write!(f, "the line ends: {expected}"),
            LineReason::Rule(rule) => write!(f, "{rule}"),
            LineReason::NotWhole(_) => write!(f, "is not whole"),
            LineReason::LongNumber(_) => write!(f, "has too many digits"),
        }
    }
}
