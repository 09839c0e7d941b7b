//! What makes the front of a query text a query, at the place where a scan stands.

use crate::functions::{WORDS, gives_value, is_literal, may_begin, takes_two};
use crate::place::{
    Begun, BegunNumber, NumberOf, Open, QuoteStage, Quoted, ScanPlace, Side, Unit, Word,
};
use crate::scanner::Scanner;
use jp_types::{Function, function_named};
use std::alloc::{AllocError, Global};

/// The shortest text, or nearly, with which the front that the scanner has read becomes a query.
pub(crate) fn completion(alloc: Global, scanner: &Scanner) -> Result<String, AllocError> {
    let mut text = String::new(alloc);
    push_place(&mut text, scanner)?;
    for open in scanner.open.as_slice().iter().rev() {
        push_closer(&mut text, *open)?;
    }
    Ok(text)
}

/// What ends the part that has begun.
fn push_place(text: &mut String, scanner: &Scanner) -> Result<(), AllocError> {
    match scanner.place {
        ScanPlace::Start => text.push('$'),
        ScanPlace::Blanks(begun) => push_segment(text, begun),
        ScanPlace::Dot(_) | ScanPlace::Dots(_) => text.push('a'),
        ScanPlace::Selector => text.push('0'),
        ScanPlace::BegunNumber(number) => push_number(text, number),
        ScanPlace::Quoted(quoted) => push_quoted(text, quoted),
        ScanPlace::Word(word) => push_word(text, scanner, word),
        ScanPlace::Operand(_) | ScanPlace::Argument(_) => text.push('@'),
        ScanPlace::Operator(_) => text.push_str("==1"),
        ScanPlace::Doubled => text.push_str("=1"),
        ScanPlace::OrEqual => text.push('1'),
        ScanPlace::And => text.push_str("&@"),
        ScanPlace::Or => text.push_str("|@"),
        _ => Ok(()),
    }
}

/// A segment, where the blanks may not end the query.
fn push_segment(text: &mut String, begun: Begun) -> Result<(), AllocError> {
    match begun.side {
        Side::Whole => text.push_str(".a"),
        _ => Ok(()),
    }
}

fn push_number(text: &mut String, number: BegunNumber) -> Result<(), AllocError> {
    if number.form.wants_digit() {
        text.push('1')?;
    }
    match number.what {
        NumberOf::Literal(side) => text.push_str(compared(side)),
        _ => Ok(()),
    }
}

fn push_quoted(text: &mut String, quoted: Quoted) -> Result<(), AllocError> {
    text.push_str(match quoted.part {
        QuoteStage::Bare => "",
        QuoteStage::Escape => "n",
        QuoteStage::Digits(unit, count) => last_digits(unit, count),
        QuoteStage::Half => "\\udc00",
        QuoteStage::HalfEscape => "udc00",
    })?;
    text.push(quoted.quote)?;
    match quoted.literal {
        Some(side) => text.push_str(compared(side)),
        None => Ok(()),
    }
}

/// The digits behind so many of the unit, and the second half of its character.
fn last_digits(unit: Unit, count: u8) -> &'static str {
    match (unit, count) {
        (Unit::High, 2) => "00\\udc00",
        (Unit::High, _) => "0\\udc00",
        (Unit::Low, 0) => "dc00",
        (Unit::Low, 1) => "c00",
        (_, 0) => "0000",
        (_, 1) => "000",
        (_, 2) => "00",
        _ => "0",
    }
}

fn push_word(text: &mut String, scanner: &Scanner, word: Word) -> Result<(), AllocError> {
    let front = scanner.front.as_str();
    if is_literal(front) {
        return text.push_str(compared(word.side));
    }
    let opens = scanner.may_open();
    for whole in &WORDS {
        if let Some(rest) = whole.strip_prefix(front) {
            if may_begin(word.side, opens, whole) {
                text.push_str(rest)?;
                return match function_named(whole) {
                    Some(function) => push_arguments(text, function, word.side),
                    None => text.push_str(compared(word.side)),
                };
            }
        }
    }
    Ok(())
}

fn push_arguments(text: &mut String, function: Function, side: Side) -> Result<(), AllocError> {
    text.push_str(if takes_two(function) { "(@,@)" } else { "(@)" })?;
    push_call_end(text, function, side)
}

/// A comparison, where a literal has to be compared.
fn compared(side: Side) -> &'static str {
    match side {
        Side::Test => "==1",
        _ => "",
    }
}

/// The same of a call.
fn push_call_end(text: &mut String, function: Function, side: Side) -> Result<(), AllocError> {
    text.push_str(if gives_value(function) {
        compared(side)
    } else {
        ""
    })
}

/// What closes the bracket.
fn push_closer(text: &mut String, open: Open) -> Result<(), AllocError> {
    match open {
        Open::Brackets(_) => text.push(']'),
        Open::Parenthesis => text.push(')'),
        Open::Call { call, second } => {
            if takes_two(call.function) && !second {
                text.push_str(",@")?;
            }
            text.push(')')?;
            push_call_end(text, call.function, call.side)
        }
    }
}
