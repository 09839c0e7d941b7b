//! Rows of JSON, and what stands in them under its name.

use serde_json::Value;

/// A row, or an object in one.
#[derive(Clone, Copy)]
pub struct Row<'v> {
    value: &'v Value,
}

impl<'v> Row<'v> {
    /// The row that a value is.
    pub fn of(value: &'v Value) -> Row<'v> {
        Row { value }
    }

    /// The name of its only member, and the row that this is. An error where there is not one member.
    pub fn only_member(self) -> anyhow::Result<(&'v str, Row<'v>)> {
        let Some(members) = self.value.as_object() else {
            return Err(anyhow::anyhow!("a row is no object"));
        };
        match members.iter().next() {
            Some((name, value)) if members.len() == 1 => Ok((name.as_str(), Row { value })),
            _ => Err(anyhow::anyhow!("a row has not one member")),
        }
    }

    /// An error where it has a member of another name.
    pub fn has_only(self, names: &[&str]) -> anyhow::Result<()> {
        if let Some(members) = self.value.as_object() {
            for (name, _) in members {
                if !is_among(name.as_str(), names) {
                    return Err(anyhow::anyhow!("a row has a member of an unknown name"));
                }
            }
        }
        Ok(())
    }

    /// The value of a member, if it has one that is not `null`.
    pub fn member(self, name: &str) -> Option<&'v Value> {
        match self.value.get(name) {
            Some(Value::Null) | None => None,
            Some(value) => Some(value),
        }
    }

    /// The text of a member. An error where it has none.
    pub fn text(self, name: &str) -> anyhow::Result<&'v str> {
        match self.text_if_any(name)? {
            Some(text) => Ok(text),
            None => Err(anyhow::anyhow!("a row lacks a text")),
        }
    }

    /// The text of a member, if it has one.
    pub fn text_if_any(self, name: &str) -> anyhow::Result<Option<&'v str>> {
        match self.member(name) {
            Some(value) => Ok(Some(text_in(value)?)),
            None => Ok(None),
        }
    }

    /// The number of a member, or 0 where it has none.
    pub fn number(self, name: &str) -> anyhow::Result<u64> {
        Ok(self.number_if_any(name)?.unwrap_or(0))
    }

    /// The number of a member, if it has one.
    pub fn number_if_any(self, name: &str) -> anyhow::Result<Option<u64>> {
        match self.member(name) {
            Some(value) => Ok(Some(number_in(value)?)),
            None => Ok(None),
        }
    }

    /// Whether a member is `true`. It is not where there is none.
    pub fn flag(self, name: &str) -> anyhow::Result<bool> {
        match self.member(name) {
            Some(value) => flag_in(value),
            None => Ok(false),
        }
    }

    /// The items of a member, none where there is none.
    pub fn items(self, name: &str) -> anyhow::Result<&'v [Value]> {
        match self.member(name) {
            Some(value) => items_in(value),
            None => Ok(&[]),
        }
    }
}

/// Whether it is one of these names.
fn is_among(name: &str, names: &[&str]) -> bool {
    for known in names {
        if *known == name {
            return true;
        }
    }
    false
}

/// The text that a value is.
pub fn text_in(value: &Value) -> anyhow::Result<&str> {
    match value.as_str() {
        Some(text) => Ok(text),
        None => Err(anyhow::anyhow!("what stands in a row is no text")),
    }
}

/// The number that a value is.
pub fn number_in(value: &Value) -> anyhow::Result<u64> {
    match value.as_u64() {
        Some(number) => Ok(number),
        None => Err(anyhow::anyhow!("what stands in a row is no number")),
    }
}

/// The truth that a value is.
pub fn flag_in(value: &Value) -> anyhow::Result<bool> {
    match value.as_bool() {
        Some(flag) => Ok(flag),
        None => Err(anyhow::anyhow!("what stands in a row is neither true nor false")),
    }
}

/// The items of the array that a value is.
pub fn items_in(value: &Value) -> anyhow::Result<&[Value]> {
    match value.as_array() {
        Some(items) => Ok(items.as_slice()),
        None => Err(anyhow::anyhow!("what stands in a row is no array")),
    }
}
