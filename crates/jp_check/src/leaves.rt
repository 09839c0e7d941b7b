//! The leaves of a compiled query.

ghost use Rattle.std.specs.Prelude.{◌≡◌, option_map, true, IfOk};
ghost use Rattle.std.specs.List.{list_all};
ghost use Rattle.std.specs.Str.{chars};
ghost use Rattle.jp_tree.specs.Tree.{number};
ghost use Rattle.jp_tree.specs.View.{literal_of, slice_of, text_of};
ghost use Rattle.jp_types.specs.Numbers as numbers;
ghost use Rattle.jp_check.specs.inner.Making.{is_readable};
ghost use Rattle.jp_compiled.specs.Parts as compiled;

use jp_compiled::{CompiledSlice, Constant, Position, WholeNumber, WrittenNumber};
use jp_tree::Literal;
use jp_types::{is_whole, position, whole_number};
use std::alloc::{AllocError, Global};

/// An index or a number of a slice.
#[tactic(auto, unfolding(crate::specs::inner::Making::is_readable))]
pub(crate) fn make_position(alloc: Global, text: &str) -> Result<Position, AllocError>
    requires { is_readable (numbers.position (chars text.now)) ≡ true }
    ensures { IfOk result (λ p. compiled.position_text p ≡ chars text.now) }
{
    let Some(value) = position(text) else {
        unreachable!()
    };
    let text = String::from_str(alloc, text)?;
    Ok(Position { text, value })
}

/// A number of a slice, which may be left out.
fn make_part(alloc: Global, part: &Option<String>) -> Result<Option<Position>, AllocError>
    requires { list_all is_readable (numbers.part_of_slice (option_map text_of part.now)) ≡ true }
    ensures { IfOk result (λ o. option_map compiled.position_text o ≡ option_map text_of part.now) }
{
    match part {
        None => Ok(None),
        Some(text) => Ok(Some(make_position(alloc, text.as_str())?)),
    }
}

/// The numbers of a slice.
pub(crate) fn make_slice(alloc: Global, slice: &jp_tree::Slice) -> Result<CompiledSlice, AllocError>
    requires { list_all is_readable (numbers.selector_numbers (slice_of slice.now)) ≡ true }
    ensures { IfOk result (λ s. compiled.slice_of s ≡ slice_of slice.now) }
{
    let first = make_part(alloc, &slice.first)?;
    let past = make_part(alloc, &slice.past)?;
    let step = make_part(alloc, &slice.step)?;
    Ok(CompiledSlice { first, past, step })
}

/// A whole number literal.
#[tactic(auto, unfolding(crate::specs::inner::Making::is_readable))]
fn make_whole(alloc: Global, text: &str) -> Result<WholeNumber, AllocError>
    requires readable { is_readable (numbers.literal_number (chars text.now)) ≡ true }
    requires whole { numbers.is_whole (chars text.now) ≡ true }
    ensures { IfOk result (λ n. text_of n.text ≡ chars text.now) }
{
    let Some(value) = whole_number(text) else {
        unreachable!()
    };
    let text = String::from_str(alloc, text)?;
    Ok(WholeNumber { text, value })
}

/// A number literal.
fn make_number(alloc: Global, text: &str) -> Result<Constant, AllocError>
    requires { is_readable (numbers.literal_number (chars text.now)) ≡ true }
    ensures { IfOk result (λ x. compiled.constant_of x ≡ number (chars text.now)) }
{
    if is_whole(text) {
        return Ok(Constant::Whole(make_whole(alloc, text)?));
    }
    let text = String::from_str(alloc, text)?;
    Ok(Constant::Written(WrittenNumber { text }))
}

/// A literal.
pub(crate) fn make_constant(alloc: Global, literal: &Literal) -> Result<Constant, AllocError>
    requires { list_all is_readable (numbers.literal_numbers (literal_of literal.now)) ≡ true }
    ensures { IfOk result (λ x. compiled.constant_of x ≡ literal_of literal.now) }
{
    match literal {
        Literal::Number(text) => make_number(alloc, text.as_str()),
        Literal::Text(text) => Ok(Constant::Text(String::from_str(alloc, text.as_str())?)),
        Literal::Truth(truth) => Ok(Constant::Truth(*truth)),
        Literal::Null => Ok(Constant::Null),
    }
}
