//! What is known of a `$` query inside a filter, once a document.

ghost use Rattle.std.specs.Prelude.{◌≡◌, Some, IfOk, IfSome, true};
ghost use Rattle.std.specs.Str.{chars};
ghost use Rattle.jp_doc.specs.Json.{text};
ghost use Rattle.jp_found.specs.Aggregates.{told};
ghost use Rattle.jp_found.specs.RootAnswers.{is_length, is_pattern, is_in_order};
ghost use Rattle.jp_node.specs.Inside.{kind_value};
ghost use Rattle.jp_value.specs.Kinds.{given_value};
ghost use Rattle.jp_value.specs.Ordered.{ordered_value};

use crate::aggregates::{Aggregate, operand};
use crate::asked::RootUse;
use jp_node::Kind;
use jp_value::{Ordered, ReadPattern, length, order};
use std::alloc::{AllocError, Global};

/// The answer to a `$` query, with what each node would ask of its value again.
#[derive(Drop)]
pub struct RootAnswer<'v> {
    /// The answer.
    pub answer: Aggregate<'v>,
    /// What `length` gives of its value.
    pub length: Length,
    /// The pattern that its value is, where that is a text, and texts are matched with one.
    pattern: Option<ReadPattern<'v>>,
    /// Its value, where values of nodes are compared with it and an object is inside.
    ordered: Option<Ordered<'v>>,
    ghost length_is: { is_length length answer ≡ true },
    ghost pattern_is: { is_pattern pattern answer ≡ true },
    ghost ordered_is: { is_in_order ordered answer ≡ true },
}

/// What `length` gives of a value, where that is kept.
#[derive(Clone, Copy)]
pub enum Length {
    /// It is not kept.
    Unknown,
    /// Nothing.
    Nothing,
    /// This number.
    Number(i128),
}

impl<'v> RootAnswer<'v> {
    /// The answer, with what is asked of such values.
    ///
    /// `AllocError` if a growth was refused.
    pub fn new(
        alloc: Global,
        answer: Aggregate<'v>,
        asked: RootUse,
    ) -> Result<RootAnswer<'v>, AllocError>
        ensures { IfOk result (λ r. r.answer ≡ answer.entry) }
    {
        // Found once a document, since a filter asks at each node: a line takes time in proportion to its
        // length.
        let length = length_of(alloc, answer, asked)?;
        let pattern = pattern_of(alloc, answer, asked)?;
        let ordered = ordered_of(alloc, answer, asked)?;
        Ok(RootAnswer {
            answer,
            length,
            pattern,
            ordered,
        })
    }

    /// The value that is told.
    pub fn value(&self) -> Option<Kind<'_>>
        ensures { given_value result ≡ told self.now.answer }
    {
        operand(self.answer)
    }

    /// The pattern that the value is, if it is kept.
    pub fn pattern(&self) -> Option<&ReadPattern<'v>>
        ensures { IfSome result (λ r. told self.now.answer ≡ Some (text (chars r.now.text.now))) }
    {
        self.pattern.as_ref()
    }

    /// The value with its members in order, if it is kept.
    pub fn ordered(&self) -> Option<&Ordered<'v>>
        ensures { IfSome result (λ o. told self.now.answer ≡ Some (ordered_value o.now)) }
    {
        self.ordered.as_ref()
    }
}

/// The length of an answer's value, where such are asked for.
fn length_of(alloc: Global, answer: Aggregate<'_>, asked: RootUse) -> Result<Length, AllocError>
    ensures { IfOk result (λ n. is_length n answer.entry ≡ true) }
{
    if !asked.length {
        return Ok(Length::Unknown);
    }
    match length(alloc, operand(answer))? {
        None => Ok(Length::Nothing),
        Some(Kind::Whole(number)) => Ok(Length::Number(number)),
        Some(_) => Ok(Length::Unknown),
    }
}

/// The pattern that an answer's value is, where such are asked for.
fn pattern_of<'v>(
    alloc: Global,
    answer: Aggregate<'v>,
    asked: RootUse,
) -> Result<Option<ReadPattern<'v>>, AllocError>
    ensures { IfOk result (λ p. is_pattern p answer.entry ≡ true) }
{
    if !asked.pattern {
        return Ok(None);
    }
    match operand(answer) {
        Some(Kind::Text(text)) => Ok(Some(ReadPattern::read(alloc, text)?)),
        _ => Ok(None),
    }
}

/// The value that an answer tells, its members in order, where values of nodes are compared with such.
fn ordered_of<'v>(
    alloc: Global,
    answer: Aggregate<'v>,
    asked: RootUse,
) -> Result<Option<Ordered<'v>>, AllocError>
    ensures { IfOk result (λ o. is_in_order o answer.entry ≡ true) }
{
    if !asked.compared {
        return Ok(None);
    }
    match operand(answer) {
        Some(kind) => put_in_order(alloc, kind),
        None => Ok(None),
    }
}

/// The value with its members in order, if there are any.
fn put_in_order<'v>(alloc: Global, kind: Kind<'v>) -> Result<Option<Ordered<'v>>, AllocError>
    ensures { IfOk result (λ r. IfSome r (λ o. ordered_value o ≡ kind_value kind.entry)) }
{
    match order(alloc, kind)? {
        Ordered::Plain(_) => Ok(None),
        ordered => Ok(Some(ordered)),
    }
}
