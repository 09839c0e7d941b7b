//! What a form writes of a value.

ghost use Rattle.std.specs.Prelude.{◌≡◌, ◌++◌, OnOk};
ghost use Rattle.jp_node.specs.Part.{part_value};

use crate::raw_text::append_raw;
use crate::unquoted_text::append_unquoted;
use crate::value_text::append_value;
use jp_node::Part;
use std::alloc::{AllocError, Global};

/// What is written of a value.
pub trait ValueForm {
    ghost use Rattle.std.specs.Prelude.{ℕ, List};
    ghost use Rattle.jp_doc.specs.Json.{Json};

    /// The text of a value.
    ghost text: { Json → List ℕ };

    /// Appends the text of a value, with a scratch buffer for pieces of it. `AllocError` if a growth was
    /// refused.
    fn append(
        alloc: Global,
        value: Part<'_>,
        scratch: &mut Vec<u8>,
        out: &mut Vec<u8>,
    ) -> Result<(), AllocError>
        ensures { OnOk result (out.new.items ≡ out.old.items ++ text (part_value value.entry)) };
}

/// The compact text of each value (RFC 8259).
pub struct Compact;

impl ValueForm for Compact {
    ghost use Rattle.jp_output.specs.OutputLine.{value_text};

    ghost text = { value_text };

    fn append(
        alloc: Global,
        value: Part<'_>,
        scratch: &mut Vec<u8>,
        out: &mut Vec<u8>,
    ) -> Result<(), AllocError> {
        append_value(alloc, value.value, scratch, out)
    }
}

/// The compact text of each value, but a text stands without its two quotes, and with `"` in place of `\"`.
pub struct Unquoted;

impl ValueForm for Unquoted {
    ghost use Rattle.jp_output.specs.UnquotedText.{unquoted_text};

    ghost text = { unquoted_text };

    fn append(
        alloc: Global,
        value: Part<'_>,
        scratch: &mut Vec<u8>,
        out: &mut Vec<u8>,
    ) -> Result<(), AllocError> {
        append_unquoted(alloc, value, scratch, out)
    }
}

/// The compact text of each value, but a text stands as it is, with no quote and no escape.
pub struct Raw;

impl ValueForm for Raw {
    ghost use Rattle.jp_output.specs.RawText.{raw_text};

    ghost text = { raw_text };

    fn append(
        alloc: Global,
        value: Part<'_>,
        scratch: &mut Vec<u8>,
        out: &mut Vec<u8>,
    ) -> Result<(), AllocError> {
        append_raw(alloc, value, scratch, out)
    }
}
