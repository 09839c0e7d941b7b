//! What might have stood at the mark, or which rule is broken there.

use jp_types::{Function, name_of};
use std::fmt;

/// What is to be said of a mark.
#[derive(Clone, Copy, Debug, PartialEq, Eq)]
pub enum Reason {
    /// The query is right up to the mark, and something else had to stand there.
    Expected(Expected),
    /// The number, the call or the bracket at the mark breaks a rule.
    Rule(Rule),
}

/// What ends the brackets or parentheses around a place.
#[derive(Clone, Copy, Debug, PartialEq, Eq)]
pub enum Closer {
    /// `]`, or `,` and another selector.
    Bracket,
    /// `)`.
    Parenthesis,
    /// `,` and another argument.
    Comma,
}

/// What might have stood at the mark (RFC 9535, 2.1 to 2.5).
#[derive(Clone, Copy, Debug, PartialEq, Eq)]
pub enum Expected {
    /// `$`, with which each query begins.
    Root,
    /// A segment, or the end of the query.
    Segment,
    /// A segment behind blanks, which may not end the query.
    SegmentAlone,
    /// What follows `.`.
    Dotted,
    /// What follows `..`.
    Descendant,
    /// A name alone, in a query that is compared.
    Name,
    /// A selector.
    Selector,
    /// A selector of a query that is compared.
    SingularSelector,
    /// What follows a selector.
    SelectorEnd,
    /// What follows the selector of a query that is compared.
    SingularEnd,
    /// What follows an index, or a number of a slice but the last.
    IndexEnd,
    /// What follows the first `:` of a slice.
    SlicePart,
    /// What follows its second `:`.
    SliceStep,
    /// A digit.
    Digit,
    /// A digit but `0`.
    DigitFromOne,
    /// What follows the `e` of a number.
    Exponent,
    /// The quote that ends a text.
    Quote(char),
    /// What follows `\` in these quotes.
    Escape(char),
    /// A hexadecimal digit.
    HexDigit,
    /// A digit behind `d`, where no second half of a character may stand.
    FirstHalf,
    /// The escape of the second half of a character.
    SecondHalf,
    /// A test of a filter.
    Test,
    /// What follows `!`.
    Negated,
    /// What is compared on the right.
    Comparable,
    /// An argument that is a value.
    ValueArgument,
    /// An argument that is a list of nodes.
    NodesArgument,
    /// The rest of a word.
    Word,
    /// The parenthesis of a call.
    Arguments,
    /// An operator of comparisons.
    Operator,
    /// The second `=` of an operator.
    Equal,
    /// The second `&`.
    And,
    /// The second `|`.
    Or,
    /// What follows a query that may be compared.
    ComparedEnd(Closer),
    /// What follows a query that may select several nodes, and so is not compared.
    SeveralEnd(Closer),
    /// What follows a test.
    TestEnd(Closer),
    /// What follows an argument.
    ArgumentEnd(Closer),
}

/// A rule for a number, a call or a bracket.
#[derive(Clone, Copy, Debug, PartialEq, Eq)]
pub enum Rule {
    /// Brackets and parentheses are nested 64 deep at most.
    TooDeep,
    /// A number literal has no fraction and no exponent, where numbers are whole.
    Whole,
    /// An index or a number of a slice is at most 9007199254740991 from zero (RFC 9535, 2.1).
    IndexRange,
    /// A number literal has 38 digits at most, where numbers are whole.
    LiteralRange,
    /// Else it has 1,000 digits at most, those of its exponent counted, which has 9.
    DecimalRange,
    /// There is no function of that name (RFC 9535, 2.4).
    NoFunction,
    /// What the function gives is a value, which has to be compared (RFC 9535, 2.4.3).
    Compared(Function),
    /// What the function gives is a test or a list of nodes, which is not compared (RFC 9535, 2.4.3).
    Alone(Function),
    /// The function takes other arguments (RFC 9535, 2.4.3).
    Takes(Function),
}

impl fmt::Display for Reason {
    fn fmt<W: fmt::Write>(&self, f: &mut fmt::Formatter<W>) -> fmt::Result {
        match self {
            Reason::Expected(expected) => write!(f, "expected {expected}"),
            Reason::Rule(rule) => write!(f, "{rule}"),
        }
    }
}

impl Closer {
    /// What stands between a list of other words and this one's, which may be a list.
    fn behind_list(self) -> &'static str {
        match self {
            Closer::Bracket => ", ",
            Closer::Parenthesis | Closer::Comma => " or ",
        }
    }
}

impl fmt::Display for Closer {
    fn fmt<W: fmt::Write>(&self, f: &mut fmt::Formatter<W>) -> fmt::Result {
        match self {
            Closer::Bracket => write!(f, "a comma or ]"),
            Closer::Parenthesis => write!(f, ")"),
            Closer::Comma => write!(f, "a comma"),
        }
    }
}

impl Expected {
    /// The words for what is no test and no end of one.
    fn words(self) -> &'static str {
        match self {
            Expected::Root => "$",
            Expected::Segment => ". or [, or the end",
            Expected::SegmentAlone => ". or [: no blank ends a query",
            Expected::Dotted => "a name, * or another .",
            Expected::Descendant => "a name, * or [",
            Expected::Name => "a name: what is compared selects one node at most",
            Expected::Selector => "a name in quotes, an index, a slice, * or ?",
            Expected::SingularSelector => {
                "a name in quotes or an index: what is compared selects one node at most"
            }
            Expected::SelectorEnd => "a comma or ]",
            Expected::SingularEnd => "]: what is compared selects one node at most",
            Expected::IndexEnd => ":, a comma or ]",
            Expected::SlicePart => "a whole number, :, a comma or ]",
            Expected::SliceStep => "a whole number, a comma or ]",
            Expected::Digit => "a digit",
            Expected::DigitFromOne => "a digit from 1 to 9",
            Expected::Exponent => "a digit, + or -",
            Expected::HexDigit => "a hexadecimal digit",
            Expected::FirstHalf => "0 to 9, a or b: \\udc00 to \\udfff stand behind a first half",
            Expected::SecondHalf => "\\udc00 to \\udfff: the second half of the character",
            _ => self.words_of_filters(),
        }
    }

    /// The words for what stands in filters.
    fn words_of_filters(self) -> &'static str {
        match self {
            Expected::Test => "a query, a comparison, a call, ! or (",
            Expected::Negated => "a query, a call or (",
            Expected::Comparable =>
                "a text in quotes, a number, true, false, null, a query or a call",
            Expected::ValueArgument => "a value: a literal, a query or a call",
            Expected::NodesArgument => "a query",
            Expected::Word => "true, false, null or a function",
            Expected::Arguments => "(",
            Expected::Operator => "==, !=, <, <=, > or >=",
            Expected::Equal => "=, for == or !=",
            Expected::And => "&, for &&",
            Expected::Or => "|, for ||",
            _ => "another character",
        }
    }
}

impl fmt::Display for Expected {
    fn fmt<W: fmt::Write>(&self, f: &mut fmt::Formatter<W>) -> fmt::Result {
        match self {
            Expected::Quote(quote) => write!(f, "{quote}; a control character stands as an escape"),
            Expected::Escape(quote) => write!(f, "b, f, n, r, t, u, /, \\ or {quote}"),
            Expected::ComparedEnd(closer) => write!(
                f,
                "an operator, &&, ||{}{closer}",
                closer.behind_list()
            ),
            Expected::SeveralEnd(closer) => write!(
                f,
                "&&, ||{}{closer}: what is compared selects one node at most",
                closer.behind_list()
            ),
            Expected::TestEnd(closer) => write!(f, "&&, ||{}{closer}", closer.behind_list()),
            Expected::ArgumentEnd(closer) => write!(f, "{closer}"),
            _ => write!(f, "{}", self.words()),
        }
    }
}

impl fmt::Display for Rule {
    fn fmt<W: fmt::Write>(&self, f: &mut fmt::Formatter<W>) -> fmt::Result {
        match self {
            Rule::TooDeep => write!(f, "brackets and parentheses are nested 64 deep at most"),
            Rule::Whole => write!(
                f,
                "a number is whole: no fraction, no exponent; --decimals allows both"
            ),
            Rule::IndexRange => write!(f, "an index is at most 9007199254740991 from zero"),
            Rule::LiteralRange => {
                write!(f, "a number has 38 digits at most; --decimals allows 1,000")
            }
            Rule::DecimalRange => write!(f, "a number has 1,000 digits at most, its exponent 9"),
            Rule::NoFunction => write!(f, "no function: there are {FUNCTIONS}"),
            Rule::Compared(function) => {
                write!(
                    f,
                    "{}() gives a value: compare it with something",
                    name_of(*function)
                )
            }
            Rule::Alone(function) => {
                write!(
                    f,
                    "{}() gives {}: it is not compared",
                    name_of(*function),
                    given_by(*function)
                )
            }
            Rule::Takes(function) => {
                write!(f, "{}() takes {}", name_of(*function), taken_by(*function))
            }
        }
    }
}

const FUNCTIONS: &str = "length, count, match, search, value, xor and distinct";

/// What a function gives that gives no value.
fn given_by(function: Function) -> &'static str {
    match function {
        Function::Distinct => "nodes",
        _ => "true or false",
    }
}

fn taken_by(function: Function) -> &'static str {
    match function {
        Function::Length => "one value, and a query for it selects one node at most",
        Function::Match | Function::Search => {
            "two values, and a query for one selects one node at most"
        }
        Function::Count | Function::Value | Function::Distinct => "one query",
        Function::Xor => "two tests",
    }
}
