//! The text of a normalized path (RFC 9535, 2.7).

ghost use Rattle.std.specs.Prelude.{◌≡◌, ◌++◌, ◌<◌, ◌∷◌, ◌/◌, ◌%◌, [], IfOk, OnOk, string_bytes};
ghost use Rattle.std.specs.Prelude.{encode_utf8_all};
ghost use Rattle.std.specs.List.{flat_map};
ghost use Rattle.std.specs.Str.{chars, IsUtf8};
ghost use Rattle.jp_doc.specs.Location.{step_of, location_of};
ghost use Rattle.jp_node.specs.Appended.{Extends};
ghost use Rattle.jp_node.specs.Path.{path_text, step_text};

use jp_doc::{Location, Step};
use jp_node::{Link, append_link};
use std::alloc::{AllocError, Global};

/// The normalized path of a location (RFC 9535, 2.7): `$`, and `['name']` or `[index]` for each step.
///
/// `AllocError` if a growth was refused.
pub fn write_path(alloc: Global, location: &Location) -> Result<String, AllocError>
    ensures { IfOk result (λ s. chars (string_bytes s) ≡ path_text (location_of location.now)) }
{
    let mut bytes = Vec::new(alloc);
    append_path(location, &mut bytes)?;
    match String::from_utf8(bytes) {
        Ok(text) => Ok(text),
        Err(_) => unreachable!(),
    }
}

/// Appends the path's bytes.
pub(crate) fn append_path(location: &Location, out: &mut Vec<u8>) -> Result<(), AllocError>
    ensures ok { OnOk result (out.new.items ≡ out.old.items ++ encode_utf8_all
        (path_text (location_of location.now))) }
    ensures text { OnOk result (IsUtf8 out.old.items → IsUtf8 out.new.items) }
    ensures kept { Extends out.old.items out.new.items }
{
    out.push(b'$')?;
    for step in &location.steps {
        append_step(step, out)?;
    }
    Ok(())
}

/// Appends `['name']` or `[index]`.
fn append_step(step: &Step, out: &mut Vec<u8>) -> Result<(), AllocError>
    ensures ok { OnOk result (out.new.items ≡ out.old.items ++ encode_utf8_all
        (step_text (step_of step.now))) }
    ensures text { OnOk result (IsUtf8 out.old.items → IsUtf8 out.new.items) }
    ensures kept { Extends out.old.items out.new.items }
{
    match step {
        Step::Name(name) => append_link(Link::Name(name.as_str()), out),
        Step::Index(index) => append_link(Link::Index(*index), out),
    }
}
