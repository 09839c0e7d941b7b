//! The numbers of a slice selector (RFC 9535, 2.3.4).

ghost use Rattle.std.specs.Prelude.{◌≡◌, ◌≤◌, option_map};
ghost use Rattle.std.specs.Option.{ForSome};
ghost use Rattle.jp_compiled.specs.Parts.{position_text};
ghost use Rattle.jp_doc.specs.Reading.{max_line};
ghost use Rattle.jp_node.specs.BoundsView.{bounds_value, IsPosition};
ghost use Rattle.jp_node.specs.Places.{AreWithin};
ghost use Rattle.jp_node.specs.Slice as spec;
ghost use Rattle.jp_value.specs.Literals.{written_value};

use jp_compiled::{CompiledSlice, Position};
use jp_node::{Bounds, slice_bounds};

/// The number of a slice, if there is one.
fn written(number: &Option<Position>) -> Option<i64>
    ensures value { result ≡ written_value (option_map position_text number.now) }
    ensures within { ForSome result IsPosition }
{
    match number {
        Some(position) => Some(position.value),
        None => None,
    }
}

/// The bounds that a slice selector has in an array with `len` items.
pub fn bounds_of(slice: &CompiledSlice, len: u32) -> Bounds
    requires { len ≤ max_line }
    ensures within { AreWithin (bounds_value result) len }
    ensures bounds { bounds_value result
        ≡ spec.slice_bounds (written_value (option_map position_text slice.now.first))
        (written_value (option_map position_text slice.now.past))
        (written_value (option_map position_text slice.now.step)) len }
{
    let first = written(&slice.first);
    let past = written(&slice.past);
    let step = written(&slice.step);
    slice_bounds(first, past, step, len)
}
