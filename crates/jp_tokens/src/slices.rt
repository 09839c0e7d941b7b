//! Indexes and slices.

ghost use Rattle.std.specs.Prelude.{◌≡◌, option_map};
ghost use Rattle.std.specs.Str.{chars};
ghost use Rattle.jp_tokens.specs.Reading as reading;
ghost use Rattle.jp_tree.specs.View.{text_of};
ghost use Rattle.jp_tree.specs.PartViews.{selector_of};
ghost use Rattle.jp_tokens.specs.Gives.{GivesFront};

use crate::numbers::int_at;
use crate::text::{begins_with, first_character, is_digit, mark_at, skip};
use jp_tree::made::{index_selector, slice_selector};
use jp_tree::{QueryFault, Selector};
use std::alloc::Global;

/// Whether an integer begins here.
fn begins_int(text: &str) -> bool
    ensures { result ≡ reading.begins_int (chars text.now) }
{
    match first_character(text) {
        Some((c, _)) => c == '-' || is_digit(c),
        None => false,
    }
}

/// Behind blanks an integer, or nothing.
#[tactic(auto, unfolding(crate::specs::Reading::bound_at))]
fn bound_at(alloc: Global, text: &str) -> Result<(Option<String>, &str), QueryFault>
    ensures { GivesFront (option_map text_of) result (reading.bound_at (chars text.now)) }
{
    let number = skip(text);
    if begins_int(number) {
        let (front, rest) = int_at(number)?;
        Ok((Some(String::from_str(alloc, front)?), rest))
    } else {
        Ok((None, text))
    }
}

/// Behind blanks `:` and perhaps an integer, or nothing.
#[tactic(auto, unfolding(crate::specs::Reading::step_at))]
fn step_at(alloc: Global, text: &str) -> Result<(Option<String>, &str), QueryFault>
    ensures { GivesFront (option_map text_of) result (reading.step_at (chars text.now)) }
{
    let mark = skip(text);
    if begins_with(':', mark) {
        bound_at(alloc, mark_at(':', mark)?)
    } else {
        Ok((None, text))
    }
}

/// From the first `:` on.
#[tactic(auto, unfolding(crate::specs::Reading::slice_at))]
fn slice_at(
    alloc: Global,
    first: Option<String>,
    text: &str,
) -> Result<(Selector, &str), QueryFault>
    ensures { GivesFront selector_of result (reading.slice_at (option_map text_of first) (chars text.now)) }
{
    let (past, rest) = bound_at(alloc, mark_at(':', text)?)?;
    let (step, rest) = step_at(alloc, rest)?;
    Ok((slice_selector(first, past, step), rest))
}

/// Behind an integer.
#[tactic(auto, unfolding(crate::specs::Reading::index_or_slice))]
fn index_or_slice(alloc: Global, number: String, text: &str) -> Result<(Selector, &str), QueryFault>
    ensures { GivesFront selector_of result (reading.index_or_slice (text_of number) (chars text.now)) }
{
    let mark = skip(text);
    if begins_with(':', mark) {
        slice_at(alloc, Some(number), mark)
    } else {
        Ok((index_selector(number), text))
    }
}

/// An index or a slice (RFC 9535, 2.3.3 and 2.3.4), and the rest.
#[tactic(auto, unfolding(crate::specs::Reading::numbers_at))]
pub fn numbers_at(alloc: Global, text: &str) -> Result<(Selector, &str), QueryFault>
    ensures { GivesFront selector_of result (reading.numbers_at (chars text.now)) }
{
    if begins_with(':', text) {
        slice_at(alloc, None, text)
    } else {
        let (number, rest) = int_at(text)?;
        index_or_slice(alloc, String::from_str(alloc, number)?, rest)
    }
}
