//! The text of a value where a text stands as it is, appended.

ghost use Rattle.std.specs.Prelude.{◌≡◌, ◌++◌, OnOk, encode_utf8_all};
ghost use Rattle.std.specs.Str.{chars};
ghost use Rattle.jp_node.specs.Part.{part_value};
ghost use Rattle.jp_output.specs.RawText.{raw_text};

use crate::unquoted_text::text_of;
use crate::value_text::append_value;
use jp_node::Part;
use std::alloc::{AllocError, Global};

/// Appends a text as it is, and of any other value its compact text (RFC 8259), with a scratch buffer for
/// pieces of it.
pub(crate) fn append_raw(
    alloc: Global,
    value: Part<'_>,
    scratch: &mut Vec<u8>,
    out: &mut Vec<u8>,
) -> Result<(), AllocError>
    ensures { OnOk result (out.new.items ≡ out.old.items ++ raw_text (part_value value.entry)) }
{
    match text_of(value) {
        Some(text) => append_bytes(text, out),
        None => append_value(alloc, value.value, scratch, out),
    }
}

/// Appends the bytes of a text.
fn append_bytes(text: &str, out: &mut Vec<u8>) -> Result<(), AllocError>
    ensures { OnOk result (out.new.items ≡ out.old.items ++ encode_utf8_all (chars text.now)) }
{
    out.extend_from_slice(text.as_bytes())?;
    Ok(())
}
