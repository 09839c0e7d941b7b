//! What may stand at a place.

use crate::functions::takes_two;
use crate::place::{
    Begun, BegunNumber, NumberOf, NumberStage, Open, QuoteStage, Quoted, ScanPlace, Side, Unit,
};
use crate::reason::{Closer, Expected};

/// What may stand at the place inside the innermost of the open brackets.
pub(crate) fn expected(place: ScanPlace, inside: Option<Open>) -> Expected {
    match place {
        ScanPlace::Start => Expected::Root,
        ScanPlace::Segments(begun) | ScanPlace::Name(begun) => behind_query(begun, inside),
        ScanPlace::Blanks(begun) => behind_blanks(begun, inside),
        ScanPlace::Dot(begun) => match begun.side {
            Side::Right => Expected::Name,
            _ => Expected::Dotted,
        },
        ScanPlace::Dots(_) => Expected::Descendant,
        ScanPlace::BegunNumber(number) => in_number(number, inside),
        ScanPlace::Quoted(quoted) => in_quotes(quoted),
        ScanPlace::Operand(side) | ScanPlace::Argument(side) => operand(side),
        ScanPlace::Word(_) => Expected::Word,
        ScanPlace::Operator(_) => Expected::Operator,
        ScanPlace::Doubled => Expected::Equal,
        ScanPlace::OrEqual => Expected::Comparable,
        ScanPlace::And => Expected::And,
        ScanPlace::Or => Expected::Or,
        ScanPlace::Joint(_) => Expected::TestEnd(closer(inside)),
        ScanPlace::ArgumentEnd => Expected::ArgumentEnd(closer(inside)),
        _ => in_brackets(place, inside),
    }
}

/// The same of a place in the brackets of a segment.
fn in_brackets(place: ScanPlace, inside: Option<Open>) -> Expected {
    let compared = is_compared(inside);
    match place {
        ScanPlace::Selector if compared => Expected::SingularSelector,
        ScanPlace::Selector => Expected::Selector,
        ScanPlace::Past => Expected::SlicePart,
        ScanPlace::Step => Expected::SliceStep,
        _ if compared => Expected::SingularEnd,
        ScanPlace::IndexEnd | ScanPlace::PastEnd => Expected::IndexEnd,
        _ => Expected::SelectorEnd,
    }
}

/// Whether the brackets are those of a query that is compared.
fn is_compared(inside: Option<Open>) -> bool {
    match inside {
        Some(Open::Brackets(begun)) => matches!(begun.side, Side::Right),
        _ => false,
    }
}

fn closer(inside: Option<Open>) -> Closer {
    match inside {
        None | Some(Open::Brackets(_)) => Closer::Bracket,
        Some(Open::Parenthesis) => Closer::Parenthesis,
        Some(Open::Call { call, second }) => {
            if takes_two(call.function) && !second {
                Closer::Comma
            } else {
                Closer::Parenthesis
            }
        }
    }
}

fn behind_query(begun: Begun, inside: Option<Open>) -> Expected {
    match begun.side {
        Side::Whole => Expected::Segment,
        Side::Test if begun.singular => Expected::ComparedEnd(closer(inside)),
        Side::Test | Side::Negated | Side::Right => Expected::TestEnd(closer(inside)),
        Side::Value | Side::Nodes => Expected::ArgumentEnd(closer(inside)),
    }
}

/// What may follow a query that may select several nodes, in the place of an operator.
pub(crate) fn behind_several(inside: Option<Open>) -> Expected {
    Expected::SeveralEnd(closer(inside))
}

/// No blank may end the whole query.
fn behind_blanks(begun: Begun, inside: Option<Open>) -> Expected {
    match begun.side {
        Side::Whole => Expected::SegmentAlone,
        _ => behind_query(begun, inside),
    }
}

fn operand(side: Side) -> Expected {
    match side {
        Side::Whole => Expected::Root,
        Side::Test => Expected::Test,
        Side::Negated => Expected::Negated,
        Side::Right => Expected::Comparable,
        Side::Value => Expected::ValueArgument,
        Side::Nodes => Expected::NodesArgument,
    }
}

fn in_number(number: BegunNumber, inside: Option<Open>) -> Expected {
    match number.form {
        NumberStage::Minus => match number.what {
            NumberOf::Literal(_) => Expected::Digit,
            _ => Expected::DigitFromOne,
        },
        NumberStage::Point | NumberStage::Sign => Expected::Digit,
        NumberStage::Letter => Expected::Exponent,
        _ => expected_behind(behind_number(number.what), inside),
    }
}

/// The place behind a number.
pub(crate) fn behind_number(what: NumberOf) -> ScanPlace {
    match what {
        NumberOf::Literal(side) => behind_literal(side),
        NumberOf::Index => ScanPlace::IndexEnd,
        NumberOf::Past => ScanPlace::PastEnd,
        NumberOf::Step => ScanPlace::SelectorEnd,
    }
}

/// The place behind a literal.
pub(crate) fn behind_literal(side: Side) -> ScanPlace {
    match side {
        Side::Value | Side::Nodes => ScanPlace::ArgumentEnd,
        Side::Test => ScanPlace::Operator(None),
        Side::Whole | Side::Negated | Side::Right => ScanPlace::Joint(None),
    }
}

/// What may stand behind a number, where its digits have ended.
fn expected_behind(place: ScanPlace, inside: Option<Open>) -> Expected {
    match place {
        ScanPlace::Operator(_) => Expected::Operator,
        ScanPlace::Joint(_) => Expected::TestEnd(closer(inside)),
        ScanPlace::ArgumentEnd => Expected::ArgumentEnd(closer(inside)),
        _ => in_brackets(place, inside),
    }
}

fn in_quotes(quoted: Quoted) -> Expected {
    match quoted.part {
        QuoteStage::Bare => Expected::Quote(quoted.quote),
        QuoteStage::Escape => Expected::Escape(quoted.quote),
        QuoteStage::Digits(Unit::Lead, _) => Expected::FirstHalf,
        QuoteStage::Digits(Unit::Low, _) => Expected::SecondHalf,
        QuoteStage::Digits(_, _) => Expected::HexDigit,
        QuoteStage::Half | QuoteStage::HalfEscape => Expected::SecondHalf,
    }
}
