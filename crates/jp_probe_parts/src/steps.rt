//! Steps of a location in rows: a name as a text, an index as a number.

use crate::rows::{number_in, text_in};
use jp_doc::{Location, Step};
use serde_json::Value;
use std::alloc::Global;

/// A step of a location.
fn step_of(alloc: Global, value: &Value) -> anyhow::Result<Step> {
    if value.is_string() {
        return Ok(Step::Name(String::from_str(alloc, text_in(value)?)?));
    }
    match u32::try_from(number_in(value)?) {
        Ok(index) => Ok(Step::Index(index)),
        Err(_) => Err(anyhow::anyhow!("an index in a row is too large")),
    }
}

/// The location that these steps lead to, one behind another.
pub fn location_of(alloc: Global, values: &[Value]) -> anyhow::Result<Location> {
    let mut steps = Vec::new(alloc);
    for value in values {
        steps.push(step_of(alloc, value)?)?;
    }
    Ok(Location { steps })
}
