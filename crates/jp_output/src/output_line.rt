//! Output lines.

ghost use Rattle.std.specs.Prelude.{◌≡◌, ◌++◌, ◌∷◌, [], false, decimal, encode_utf8_all, OnOk, OnErr};
ghost use Rattle.serde_json.specs.View.{view};
ghost use Rattle.serde_json.specs.Written.{has_float};
ghost use Rattle.jp_doc.specs.Json.{value_of};
ghost use Rattle.jp_doc.specs.Location.{location_of};
ghost use Rattle.jp_node.specs.Appended.{Extends};
ghost use Rattle.jp_output.specs.OutputLine.{line_text};
ghost use Rattle.jp_node.specs.Path.{path_text};

use crate::path::append_path;
use itoa::Buffer;
use jp_doc::Location;
use serde_json::Value;
use std::alloc::{AllocError, Global};

/// Appends the output line of a node: the document's number, a tab, the node's path, a tab, the value's
/// compact text and a line feed.
///
/// All numbers of the value are whole. After an `AllocError`, which says that a growth was refused, `out` is
/// as before.
pub fn write_line(
    alloc: Global,
    number: u64,
    location: &Location,
    value: &Value,
    out: &mut Vec<u8>,
) -> Result<(), AllocError>
    requires { has_float (view value.now) ≡ false }
    ensures ok { OnOk result (out.new.items ≡ out.old.items ++ line_text number (location_of location.now)
        (value_of value.now)) }
    ensures err { OnErr result (out.new.items ≡ out.old.items) }
{
    let text = value.to_string(alloc)?;
    let before = out.len();
    match append_line(number, location, text.as_str(), out) {
        Ok(()) => Ok(()),
        Err(error) => {
            out.truncate(before);
            Err(error)
        }
    }
}

/// Appends the parts of a line, and on an error some of them.
fn append_line(
    number: u64,
    location: &Location,
    text: &str,
    out: &mut Vec<u8>,
) -> Result<(), AllocError>
    ensures ok { OnOk result (out.new.items ≡ out.old.items ++
        (decimal number ++ (9 ∷ encode_utf8_all (path_text (location_of location.now)) ++
        (9 ∷ text.now ++ 10 ∷ [])))) }
    ensures kept { Extends out.old.items out.new.items }
{
    append_number(number, out)?;
    append_path(location, out)?;
    out.push(b'\t')?;
    out.extend_from_slice(text.as_bytes())?;
    out.push(b'\n')?;
    Ok(())
}

/// Appends a document's number and a tab, and on an error perhaps the number alone.
pub(crate) fn append_number(number: u64, out: &mut Vec<u8>) -> Result<(), AllocError>
    ensures ok { OnOk result (out.new.items ≡ out.old.items ++ (decimal number ++ 9 ∷ [])) }
    ensures kept { Extends out.old.items out.new.items }
{
    let mut buffer = Buffer::new();
    out.extend_from_slice(buffer.format(number).as_bytes())?;
    out.push(b'\t')?;
    Ok(())
}
