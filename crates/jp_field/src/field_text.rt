//! The field that a text spells.

ghost use Rattle.std.specs.Prelude.{◌≡◌, ◌≢◌, ◌∷◌, List, IfOk, IfErr, IfSome, IsNone, MatchOption, map};
ghost use Rattle.std.specs.Str.{chars};
ghost use Rattle.jp_tree.specs.Tree.{Text};
ghost use Rattle.jp_tree.specs.View.{text_of};
ghost use Rattle.jp_output.specs.Rows.{Path, field_of};
ghost use Rattle.jp_field.specs.FieldText.{AreFields, IsFieldRefused, IsFieldText};

use crate::steps::field_of_segments;
use jp_check::plan_in;
use jp_number::Numbers;
use jp_output::Field;
use jp_tree::QueryFault;
use std::alloc::{AllocError, Global};

/// The field that this text spells: a singular query of `@` (RFC 9535, 2.3.5.1).
///
/// # Errors
///
/// - [`QueryFault::Syntax`] where it does not begin with `@`.
/// - [`QueryFault::IllTyped`] where the query is not singular.
/// - Those of [`plan_in`] of the query with `$` in the place of `@`.
///
/// [`QueryFault::Memory`] in the place of any answer where a growth of memory was refused.
pub fn field_in(alloc: Global, text: &str) -> Result<Field, QueryFault>
    ensures ok { IfOk result (λ f. IsFieldText (chars text.now) (field_of f)) }
    ensures fault { IfErr result (λ f. f ≢ QueryFault.Memory → IsFieldRefused (chars text.now) f) }
{
    let Some(query) = root_query(alloc, text)? else {
        return Err(QueryFault::Syntax);
    };
    let plan = plan_in(alloc, query.as_str(), Numbers::Whole)?;
    match field_of_segments(alloc, plan.compiled().segments.as_slice())? {
        Some(field) => Ok(field),
        None => Err(QueryFault::IllTyped),
    }
}

/// The fields that these texts spell, in their order; none where one of them is refused. `AllocError` if a
/// growth of memory was refused.
pub fn fields_in(alloc: Global, texts: &[&str]) -> Result<Option<Vec<Field>>, AllocError>
    ensures some { IfOk result (λ o. IfSome o
        (λ fields. AreFields (map (λ t. t.now) texts.now) (map field_of fields.items))) }
    ensures none { IfOk result (λ o. IsNone o
        → (fields : List Path) → AreFields (map (λ t. t.now) texts.now) fields → ⊥) }
{
    let mut fields = Vec::with_capacity(alloc, texts.len())?;
    for text in texts {
        match read(alloc, text)? {
            Ok(field) => fields.push(field)?,
            Err(_) => return Ok(None),
        }
    }
    Ok(Some(fields))
}

/// The field that a text spells, or its refusal. `AllocError` if a growth of memory was refused.
fn read(alloc: Global, text: &str) -> Result<Result<Field, QueryFault>, AllocError>
    ensures ok { IfOk result (λ r. IfOk r (λ f. IsFieldText (chars text.now) (field_of f))) }
    ensures refused { IfOk result (λ r. IfErr r (IsFieldRefused (chars text.now))) }
{
    match field_in(alloc, text) {
        Ok(field) => Ok(Ok(field)),
        Err(QueryFault::Memory) => Err(AllocError),
        Err(fault) => Ok(Err(fault)),
    }
}

/// The text with `$` in the place of `@`, where it begins with that. `AllocError` if memory was refused.
fn root_query(alloc: Global, text: &str) -> Result<Option<String>, AllocError>
    ensures { IfOk result (λ query. MatchOption query
        ((rest : Text) → chars text.now ≡ 64 ∷ rest → ⊥)
        (λ s. (rest : Text) × (chars text.now ≡ 64 ∷ rest) × (text_of s ≡ 36 ∷ rest))) }
{
    let mut rest = text.chars();
    if rest.next() != Some('@') {
        return Ok(None);
    }
    let mut query = String::from_str(alloc, "$")?;
    query.push_str(rest.as_str())?;
    Ok(Some(query))
}
