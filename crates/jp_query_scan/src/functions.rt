//! What a scan asks of the functions (RFC 9535, 2.4), and the words of filters.

use crate::place::Side;
use jp_types::{Function, FunctionType, function_named, parameters, result_type};

/// The words that may begin an operand.
pub(crate) const WORDS: [&str; 10] = [
    "true", "false", "null", "length", "count", "match", "search", "value", "xor", "distinct",
];

/// Whether the function's result is a value, which is compared.
pub(crate) fn gives_value(function: Function) -> bool {
    matches!(result_type(function), FunctionType::Value)
}

/// Whether the function takes two arguments.
pub(crate) fn takes_two(function: Function) -> bool {
    parameters(function).len() == 2
}

/// What the function takes for each argument.
pub(crate) fn parameter(function: Function) -> Side {
    match parameters(function).first() {
        Some(FunctionType::Nodes) => Side::Nodes,
        Some(FunctionType::Logical) => Side::Test,
        _ => Side::Value,
    }
}

/// Whether a call of the function may stand there.
pub(crate) fn may_call(side: Side, function: Function) -> bool {
    match side {
        Side::Whole => false,
        Side::Test => true,
        Side::Negated => !gives_value(function),
        Side::Right | Side::Value => gives_value(function),
        Side::Nodes => matches!(result_type(function), FunctionType::Nodes),
    }
}

/// Whether a literal may stand there.
pub(crate) fn takes_literal(side: Side) -> bool {
    matches!(side, Side::Test | Side::Right | Side::Value)
}

/// Whether the word is a literal.
pub(crate) fn is_literal(word: &str) -> bool {
    matches!(word, "true" | "false" | "null")
}

/// Whether the word, of those above, may begin an operand there, where brackets may be opened or not.
pub(crate) fn may_begin(side: Side, opens: bool, word: &str) -> bool {
    match function_named(word) {
        Some(function) => opens && may_call(side, function),
        None => takes_literal(side),
    }
}
