//! The texts of values with nothing inside (RFC 8259), appended.

ghost use Rattle.std.specs.Prelude.{◌≡◌, ◌++◌, OnOk, codes};
ghost use Rattle.std.specs.Str.{chars};
ghost use Rattle.json.specs.Print.{escape, quoted};
ghost use Rattle.jp_output.specs.OutputLine.{truth_text, quoted_text};
ghost use Rattle.jp_node.specs.Appended.{Extends};

use jp_node::is_bare;
use json::Writer;
use std::alloc::{AllocError, Global};
use std::mem;

pub(crate) fn append_null(out: &mut Vec<u8>) -> Result<(), AllocError>
    ensures ok { OnOk result (out.new.items ≡ out.old.items ++ codes "null") }
    ensures kept { Extends out.old.items out.new.items }
{
    out.extend_from_slice(b"null")
}

pub(crate) fn append_truth(truth: bool, out: &mut Vec<u8>) -> Result<(), AllocError>
    ensures ok { OnOk result (out.new.items ≡ out.old.items ++ truth_text truth) }
    ensures kept { Extends out.old.items out.new.items }
{
    if truth {
        out.extend_from_slice(b"true")
    } else {
        out.extend_from_slice(b"false")
    }
}

/// Appends a text between quotes, with the shortest escapes (RFC 8259, 7).
///
/// One that needs no escape is copied; of another the text is made in the scratch buffer.
pub(crate) fn append_quoted(
    alloc: Global,
    text: &str,
    scratch: &mut Vec<u8>,
    out: &mut Vec<u8>,
) -> Result<(), AllocError>
    ensures ok { OnOk result (out.new.items ≡ out.old.items ++ quoted_text (chars text.now)) }
    ensures kept { Extends out.old.items out.new.items }
{
    if is_bare(text.as_bytes(), b'"') {
        return append_bare(text, out);
    }
    make_quoted(alloc, text, scratch)?;
    out.extend_from_slice(scratch.as_slice())
}

/// Appends a text that needs no escape.
fn append_bare(text: &str, out: &mut Vec<u8>) -> Result<(), AllocError>
    requires { escape text.now ≡ text.now }
    ensures ok { OnOk result (out.new.items ≡ out.old.items ++ quoted text.now) }
    ensures kept { Extends out.old.items out.new.items }
{
    out.push(b'"')?;
    out.extend_from_slice(text.as_bytes())?;
    out.push(b'"')?;
    Ok(())
}

/// Makes a text between quotes in the scratch buffer, by way of the JSON crate's writer.
fn make_quoted(alloc: Global, text: &str, scratch: &mut Vec<u8>) -> Result<(), AllocError>
    ensures { OnOk result (scratch.new.items ≡ quoted text.now) }
{
    scratch.clear();
    let mut writer = Writer::new(mem::replace(scratch, Vec::new(alloc)));
    let written = writer.string(text);
    *scratch = writer.into_inner();
    written
}
