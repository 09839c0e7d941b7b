//! Values compared: `{"compared":{"pairs":["1.0 1","1e2 null"]}}` is `"=n"`, of each pair one of `<`, `=`,
//! `>` and `n`, which says that the two are no more than unequal.
//!
//! The two are read from one line, and compared by all calls, each way round: `?` stands where these tell
//! otherwise than one another, or where a number's text is not the one that is asked of.

use jp_flat::{FlatKind, FlatValue, LineReader};
use jp_node::{Kind, Part};
use jp_number::Numbers;
use jp_probe_parts::{Row, text_in};
use jp_tree::Operator;
use jp_value::compare_kinds;
use std::alloc::{AllocError, Global};
use std::cmp::Ordering;

/// The answer to the pairs, each with a space between its two values: a letter for each.
pub fn answer_compared(alloc: Global, row: Row<'_>) -> anyhow::Result<String> {
    row.has_only(&["pairs"])?;
    let mut reader = LineReader::new(alloc);
    let mut signs = String::new(alloc);
    for pair in row.items("pairs")? {
        signs.push(sign_of(alloc, &mut reader, text_in(pair)?)?)?;
    }
    Ok(serde_json::to_string(alloc, &signs)?)
}

/// The letter of a pair.
fn sign_of(alloc: Global, reader: &mut LineReader, pair: &str) -> anyhow::Result<char> {
    let Some((left, right)) = pair.split_once(" ") else {
        return Ok('?');
    };
    let line = format!(in alloc; "[{left},{right}]")?;
    let document = reader.read(Numbers::Decimals, line.as_bytes())??;
    let (one, other) = (document.root().item(0), document.root().item(1));
    let (Some(one), Some(other)) = (one, other) else {
        return Ok('?');
    };
    let root = Part::root_of(&document);
    let (Some(first), Some(second)) = (root.item(0), root.item(1)) else {
        return Ok('?');
    };
    let sign = sign_by_operators(alloc, first.kind(), second.kind())?;
    let are_alike = is_sign_of_numbers(sign, one, other) && is_written(one, left);
    Ok(if are_alike && is_written(other, right) {
        sign
    } else {
        '?'
    })
}

/// The operators that are true of two values, as letters in this order: `==`, `!=`, `<=`, `>=`, `<`, `>`.
fn told(alloc: Global, left: Kind<'_>, right: Kind<'_>) -> Result<String, AllocError> {
    let operators = [
        (Operator::Eq, 'e'),
        (Operator::Ne, 'n'),
        (Operator::Le, 'm'),
        (Operator::Ge, 'a'),
        (Operator::Lt, 'l'),
        (Operator::Gt, 'g'),
    ];
    let mut letters = String::new(alloc);
    for (operator, letter) in operators {
        if compare_kinds(alloc, operator, Some(left), Some(right))? {
            letters.push(letter)?;
        }
    }
    Ok(letters)
}

/// The letter by what the operators tell of two values, each way round.
fn sign_by_operators(alloc: Global, left: Kind<'_>, right: Kind<'_>) -> Result<char, AllocError> {
    let one = told(alloc, left, right)?;
    let other = told(alloc, right, left)?;
    Ok(match (one.as_str(), other.as_str()) {
        ("nml", "nag") => '<',
        ("ema", "ema") => '=',
        ("nag", "nml") => '>',
        ("n", "n") => 'n',
        _ => '?',
    })
}

/// Whether the calls of numbers say so too, where both are numbers.
fn is_sign_of_numbers(sign: char, left: FlatValue<'_>, right: FlatValue<'_>) -> bool {
    let (Some(one), Some(other)) = (left.number(), right.number()) else {
        return true;
    };
    let order = match sign {
        '<' => Ordering::Less,
        '=' => Ordering::Equal,
        '>' => Ordering::Greater,
        _ => return false,
    };
    one.compare(other) == order
        && other.compare(one) == order.reverse()
        && one.is_equal(other) == order.is_eq()
        && one.is_below(other) == order.is_lt()
}

/// Whether the value has this text, where it is a number.
fn is_written(value: FlatValue<'_>, text: &str) -> bool {
    match value.kind() {
        FlatKind::Number(number) => number.digits() == text,
        _ => true,
    }
}
