//! Numbers: `{"order":{"left":"1.0","right":"2"}}` and `{"limits":{"number":"1e999999999"}}`.
//!
//! The order of two numbers is `<`, `=` or `>`, as each call says of them both ways round, by their texts and
//! as whole numbers where they are such; `unlike` where not all say the same.

use jp_number::{Number, NumberText, Numbers};
use jp_probe_parts::Row;
use std::alloc::Global;
use std::cmp::Ordering;

/// Which numbers a row asks for, as `numbers`: `whole`, as where it names none, or `decimals`.
pub fn numbers_of(row: Row<'_>) -> anyhow::Result<Numbers> {
    match row.text_if_any("numbers")? {
        Some("whole") | None => Ok(Numbers::Whole),
        Some("decimals") => Ok(Numbers::Decimals),
        Some(_) => Err(anyhow::anyhow!("no numbers have the name that stands in a row")),
    }
}

/// Answers `order`, of two numbers: `null` where one is over the limits.
pub fn answer_order(alloc: Global, row: Row<'_>) -> anyhow::Result<String> {
    row.has_only(&["left", "right"])?;
    let said = order_of(row.text("left")?, row.text("right")?);
    Ok(serde_json::to_string(alloc, &said)?)
}

/// Answers `limits`: whether a number is within the limits.
pub fn answer_limits(alloc: Global, row: Row<'_>) -> anyhow::Result<String> {
    row.has_only(&["number"])?;
    let fits = NumberText::new(row.text("number")?).is_some();
    Ok(serde_json::to_string(alloc, &fits)?)
}

/// The order of two numbers, as each call says.
fn order_of(left: &str, right: &str) -> Option<&'static str> {
    let left_text = Number::Written(NumberText::new(left)?);
    let right_text = Number::Written(NumberText::new(right)?);
    let (left, right) = (whole_or(left, left_text), whole_or(right, right_text));
    let order = left_text.compare(right_text);
    let is_told = is_ordered(left_text, right_text, order)
        && is_ordered(left_text, right, order)
        && is_ordered(left, right_text, order)
        && is_ordered(left, right, order);
    match order {
        _ if !is_told => Some("unlike"),
        Ordering::Less => Some("<"),
        Ordering::Equal => Some("="),
        Ordering::Greater => Some(">"),
    }
}

/// The number of a text: whole where it is a whole number of 128 bits.
fn whole_or<'a>(text: &str, written: Number<'a>) -> Number<'a> {
    match text.parse::<i128>() {
        Ok(number) => Number::Whole(number),
        Err(_) => written,
    }
}

/// Whether two numbers stand in this order, and the other way round in the opposite one.
fn is_ordered(left: Number<'_>, right: Number<'_>, order: Ordering) -> bool {
    is_told(left, right, order) && is_told(right, left, order.reverse())
}

/// Whether each call answers by this order.
fn is_told(left: Number<'_>, right: Number<'_>, order: Ordering) -> bool {
    left.compare(right) == order
        && left.is_equal(right) == order.is_eq()
        && left.is_below(right) == order.is_lt()
}
