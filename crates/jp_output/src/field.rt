//! Fields: the values that singular queries of `@` select at a node (RFC 9535, 2.3.5.1).

ghost use Rattle.std.specs.Prelude.{◌≡◌, map, option_map, IfOk};
ghost use Rattle.jp_node.specs.Part.{part_value};
ghost use Rattle.jp_output.specs.Rows.{field_of, field_value, item_by, step_of, step_value};

use crate::shared::Shared;
use jp_node::{Part, place_in};
use std::alloc::{AllocError, Global};
use std::marker::Model;

/// What a segment of a singular query selects.
#[derive(Debug, PartialEq, Eq, Drop)]
pub enum FieldStep {
    /// The member of this name (RFC 9535, 2.3.1).
    Name(String),
    /// The item at this index, which counts from the end where it is negative (RFC 9535, 2.3.3).
    Index(i64),
}

/// A field: what a singular query of `@` selects, step after step.
#[derive(Debug, PartialEq, Eq, Drop)]
pub struct Field {
    /// The steps, in the order of the query's segments.
    pub steps: Vec<FieldStep>,
}

/// Fields that forms share. They mean the list of what they are.
#[derive(Drop)]
pub struct FieldList {
    shared: Option<Shared<Vec<Field>>>,
}

impl Model for FieldList {
    ghost use Rattle.std.specs.Prelude.{List};
    ghost use Rattle.jp_output.specs.Rows.{Path};
    ghost use Rattle.jp_output.specs.inner.SharedFields.{fields_of};

    ghost Value = { List Path };

    ghost view = { λ f. fields_of f.shared };
}

impl FieldList {
    ghost use Rattle.std.specs.Prelude.{[]};

    /// None. It takes no memory.
    pub fn none() -> FieldList
        ensures { result ≡ [] }
    {
        FieldList { shared: None }
    }

    /// These, copied, which takes no memory where there are none. `AllocError` if memory was refused.
    pub fn of(alloc: Global, fields: &[Field]) -> Result<FieldList, AllocError>
        ensures { IfOk result (λ f. f ≡ map field_of fields.now) }
    {
        if fields.is_empty() {
            return Ok(FieldList::none());
        }
        let copy = copy_of(alloc, fields)?;
        Ok(FieldList {
            shared: Some(Shared::new(alloc, copy)?),
        })
    }

    /// The same, which takes no memory.
    pub fn again(&self) -> FieldList
        ensures { result ≡ self.now }
    {
        match &self.shared {
            Some(shared) => FieldList {
                shared: Some(shared.again()),
            },
            None => FieldList::none(),
        }
    }

    /// The list of them. `AllocError` where one more owner of it was refused.
    pub(crate) fn list(&self) -> Result<&[Field], AllocError>
        ensures { IfOk result (λ list. map field_of list.now ≡ self.now) }
    {
        let Some(shared) = &self.shared else {
            return Ok(&[]);
        };
        match shared.value() {
            Some(list) => Ok(list.as_slice()),
            None => Err(AllocError),
        }
    }
}

impl FieldStep {
    /// The same. `AllocError` if memory was refused.
    fn copy(&self, alloc: Global) -> Result<FieldStep, AllocError>
        ensures { IfOk result (λ step. step_of step ≡ step_of self.now) }
    {
        match self {
            FieldStep::Name(name) => Ok(FieldStep::Name(String::from_str(alloc, name.as_str())?)),
            FieldStep::Index(index) => Ok(FieldStep::Index(*index)),
        }
    }
}

impl Field {
    /// The same. `AllocError` if memory was refused.
    fn copy(&self, alloc: Global) -> Result<Field, AllocError>
        ensures { IfOk result (λ field. field_of field ≡ field_of self.now) }
    {
        let mut steps = Vec::with_capacity(alloc, self.steps.len())?;
        for step in &self.steps {
            steps.push(step.copy(alloc)?)?;
        }
        Ok(Field { steps })
    }

    /// The value that the steps lead to from this one, if there is one.
    pub(crate) fn value_in<'v>(&self, value: Part<'v>) -> Option<Part<'v>>
        ensures { option_map part_value result ≡ field_value (field_of self.now) (part_value value.entry) }
    {
        let mut last = value;
        for step in &self.steps {
            last = step_from(step, last)?;
        }
        Some(last)
    }
}

/// The value that a step leads to, if there is one.
fn step_from<'v>(step: &FieldStep, value: Part<'v>) -> Option<Part<'v>>
    ensures { option_map part_value result ≡ step_value (step_of step.now) (part_value value.entry) }
{
    match step {
        FieldStep::Name(name) => value.member(name.as_str()),
        FieldStep::Index(index) => item_at(place_in(*index, value), value),
    }
}

/// The item at this place, if there is one.
fn item_at<'v>(place: Option<u32>, value: Part<'v>) -> Option<Part<'v>>
    ensures { option_map part_value result ≡ item_by place (part_value value.entry) }
{
    value.item(place?)
}

/// The same fields. `AllocError` if memory was refused.
fn copy_of(alloc: Global, fields: &[Field]) -> Result<Vec<Field>, AllocError>
    ensures { IfOk result (λ copy. map field_of copy.items ≡ map field_of fields.now) }
{
    let mut copy = Vec::with_capacity(alloc, fields.len())?;
    for field in fields {
        copy.push(field.copy(alloc)?)?;
    }
    Ok(copy)
}
