//! The explanation of a refused query.

ghost use Rattle.std.specs.Prelude.{◌≡◌, ◌≤◌, false, length, take, IsTrue};
ghost use Rattle.std.specs.Prelude.{IfOk, IfSome, IfNone};
ghost use Rattle.std.specs.Str.{chars};
ghost use Rattle.jp_tree.specs.View.{text_of};
ghost use Rattle.jp_explain.specs.Mark.{MayGoOn, IsQuery};

use crate::growth::{push_character, push_text};
use jp_check::plan_in;
use jp_number::Numbers;
use jp_query_scan::{Expected, Reason, Scanned, scan};
use jp_tokens::first_character;
use jp_tree::QueryFault;
use std::alloc::{AllocError, Global};

/// Where a refused query went wrong, and what is to be said of that place.
#[derive(Clone, Copy, Debug, PartialEq, Eq)]
pub struct Explanation {
    /// How many characters of the query stand before the mark.
    pub mark: usize,
    /// What might have stood there, or which rule is broken there.
    pub reason: Reason,
}

/// Whether the text is accepted as a query whose literals are these numbers.
fn is_query(alloc: Global, text: &str, numbers: Numbers) -> Result<bool, AllocError>
    ensures yes { IfOk result (λ b. IsTrue b → IsQuery numbers (chars text.now)) }
    ensures no { IfOk result (λ b. b ≡ false → ¬ IsQuery numbers (chars text.now)) }
{
    match plan_in(alloc, text, numbers) {
        Ok(_plan) => Ok(true),
        Err(fault) => {
            if fault == QueryFault::Memory {
                return Err(AllocError);
            }
            Ok(false)
        }
    }
}

/// The first characters of the text, so many, if it has as many.
#[tactic(auto, using(crate::proofs::Marks::front_read))]
fn front(alloc: Global, text: &str, count: usize) -> Result<Option<String>, AllocError>
    ensures room { IfOk result (λ o. IfSome o (λ _. count ≤ length (chars text.now))) }
    ensures value { IfOk result (λ o. IfSome o (λ s. text_of s ≡ take count (chars text.now))) }
{
    let mut front = String::new(alloc);
    let mut rest = text;
    for _turn in 0..count {
        let Some((c, more)) = first_character(rest) else {
            return Ok(None);
        };
        push_character(&mut front, c)?;
        rest = more;
    }
    Ok(Some(front))
}

/// Whether the front of the text up to the mark becomes a query by the completion.
fn may_go_on(
    alloc: Global,
    text: &str,
    numbers: Numbers,
    found: &Scanned,
) -> Result<bool, AllocError>
    ensures { IfOk result (λ b. IsTrue b → MayGoOn numbers (chars text.now) found.now.mark) }
{
    match front(alloc, text, found.mark)? {
        Some(mut whole) => {
            push_text(&mut whole, found.completion.as_str())?;
            is_query(alloc, whole.as_str(), numbers)
        }
        None => Ok(false),
    }
}

/// The explanation that is right of each refused text.
fn at_root(text: &str) -> Explanation
    ensures { (numbers : Numbers) → MayGoOn numbers (chars text.now) result.mark }
{
    match first_character(text) {
        Some(('$', _rest)) => Explanation {
            mark: 1,
            reason: Reason::Expected(Expected::Segment),
        },
        _ => Explanation {
            mark: 0,
            reason: Reason::Expected(Expected::Root),
        },
    }
}

/// Where a query that is refused, if its literals are these numbers, went wrong, and what is to be said of
/// that place; `None` of an accepted one.
///
/// Where the grammar had something else stand ([`Reason::Expected`]), the mark is behind the longest front
/// of the query with which some accepted query begins. Where a rule is broken ([`Reason::Rule`]), it is
/// before the number, the call or the bracket. Of several faults the first from the left is told. That some
/// accepted query begins with all before the mark is proved; that no mark farther on would do is tested.
///
/// # Errors
///
/// `AllocError` where a growth of memory was refused.
pub fn explain(
    alloc: Global,
    query: &str,
    numbers: Numbers,
) -> Result<Option<Explanation>, AllocError>
    // Nothing is explained of an accepted query alone.
    ensures accepted { IfOk result (λ o. IfNone o (IsQuery numbers (chars query.now))) }
    ensures refused { IfOk result (λ o. IfSome o (λ _. ¬ IsQuery numbers (chars query.now))) }
    // Some accepted query begins as this one does up to the mark.
    ensures mark { IfOk result (λ o. IfSome o (λ x. MayGoOn numbers (chars query.now) x.mark)) }
{
    if is_query(alloc, query, numbers)? {
        return Ok(None);
    }
    let found = scan(alloc, query, numbers)?;
    if may_go_on(alloc, query, numbers, &found)? {
        return Ok(Some(Explanation {
            mark: found.mark,
            reason: found.reason,
        }));
    }
    Ok(Some(at_root(query)))
}
