//! Where a scan of a query text stands.

use jp_types::Function;

/// Where an expression stands, which says what it may be.
#[derive(Clone, Copy)]
pub(crate) enum Side {
    /// It is the whole query.
    Whole,
    /// It is a test, or the left side of a comparison.
    Test,
    /// It is a test behind `!`.
    Negated,
    /// It is the right side of a comparison.
    Right,
    /// It is an argument that is a value.
    Value,
    /// It is an argument that is a list of nodes.
    Nodes,
}

/// A query that has begun, to its last segment so far.
#[derive(Clone, Copy)]
pub(crate) struct Begun {
    pub(crate) side: Side,
    /// Whether it selects one node at most by its form (RFC 9535, 2.3.5.1).
    pub(crate) singular: bool,
}

/// A call, whose name begins behind so many characters.
#[derive(Clone, Copy)]
pub(crate) struct Called {
    pub(crate) function: Function,
    pub(crate) side: Side,
    pub(crate) start: usize,
}

/// A bracket or parenthesis that is open.
#[derive(Clone, Copy)]
pub(crate) enum Open {
    /// The brackets of a segment, with the query that it belongs to.
    Brackets(Begun),
    /// A parenthesis around a test.
    Parenthesis,
    /// The parenthesis of a call.
    Call {
        call: Called,
        /// Whether the first argument is behind.
        second: bool,
    },
}

/// What a number is.
#[derive(Clone, Copy)]
pub(crate) enum NumberOf {
    Literal(Side),
    /// An index, or the first number of a slice.
    Index,
    /// The second number of a slice.
    Past,
    /// The third number of a slice.
    Step,
}

/// The characters of a number so far.
#[derive(Clone, Copy)]
pub(crate) enum NumberStage {
    Minus,
    Zero,
    Digits,
    /// Behind `.`.
    Point,
    /// Behind digits of the fraction.
    Fraction,
    /// Behind `e` or `E`.
    Letter,
    /// Behind the sign of the exponent.
    Sign,
    /// Behind digits of the exponent.
    Exponent,
}

impl NumberStage {
    /// Whether a digit has to follow.
    pub(crate) fn wants_digit(self) -> bool {
        matches!(
            self,
            NumberStage::Minus | NumberStage::Point | NumberStage::Letter | NumberStage::Sign
        )
    }
}

/// A number that has begun.
#[derive(Clone, Copy)]
pub(crate) struct BegunNumber {
    pub(crate) what: NumberOf,
    pub(crate) form: NumberStage,
    pub(crate) start: usize,
    /// How many digits a literal has; of another number how far it is from zero.
    pub(crate) size: u64,
    /// How many of them its exponent has.
    pub(crate) exponent: u64,
}

/// Which code unit hexadecimal digits write (RFC 9535, 2.3.1.1).
#[derive(Clone, Copy)]
pub(crate) enum Unit {
    /// That is open, or it is a character by itself.
    Scalar,
    /// It begins with `d`.
    Lead,
    /// The first half of a character.
    High,
    /// The second half.
    Low,
}

/// Where a scan stands in quotes.
#[derive(Clone, Copy)]
pub(crate) enum QuoteStage {
    Bare,
    /// Behind a backslash.
    Escape,
    /// Behind so many hexadecimal digits.
    Digits(Unit, u8),
    /// Behind the first half of a character.
    Half,
    /// Behind that and a backslash.
    HalfEscape,
}

/// A text in quotes that has begun: a literal on that side, or else a name.
#[derive(Clone, Copy)]
pub(crate) struct Quoted {
    pub(crate) quote: char,
    pub(crate) literal: Option<Side>,
    pub(crate) part: QuoteStage,
}

/// A word that has begun; behind `lost` characters no word that may stand here goes on as it does.
#[derive(Clone, Copy)]
pub(crate) struct Word {
    pub(crate) side: Side,
    pub(crate) start: usize,
    pub(crate) lost: Option<usize>,
}

/// Where the scan stands.
#[derive(Clone, Copy)]
pub(crate) enum ScanPlace {
    /// Before the query.
    Start,
    /// Behind `$`, `@` or a segment.
    Segments(Begun),
    /// Behind blanks behind these.
    Blanks(Begun),
    /// Behind `.`.
    Dot(Begun),
    /// Behind `..`.
    Dots(Begun),
    /// In a name without quotes.
    Name(Begun),
    /// Where a selector begins.
    Selector,
    /// Behind a selector.
    SelectorEnd,
    /// Behind an index, or the first number of a slice.
    IndexEnd,
    /// Behind the first colon of a slice.
    Past,
    /// Behind the second number of a slice.
    PastEnd,
    /// Behind the second colon of a slice.
    Step,
    BegunNumber(BegunNumber),
    Quoted(Quoted),
    Word(Word),
    /// Where an expression begins.
    Operand(Side),
    /// Where an argument begins.
    Argument(Side),
    /// Behind an argument that is no test.
    ArgumentEnd,
    /// Behind a left side that has to be compared: a literal, or this call.
    Operator(Option<Called>),
    /// Behind the first character of `==` or `!=`.
    Doubled,
    /// Behind `<` or `>`.
    OrEqual,
    /// Behind the first `&`.
    And,
    /// Behind the first `|`.
    Or,
    /// Behind a test, which may be this call.
    Joint(Option<Called>),
}
