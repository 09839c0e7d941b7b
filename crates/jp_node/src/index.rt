//! The places of indexes (RFC 9535, 2.3.3).

ghost use Rattle.std.specs.Prelude.{◌≡◌, option_to_list};
ghost use Rattle.jp_doc.specs.Location.{Location, node};
ghost use Rattle.jp_node.specs.Selected.{index_places};
ghost use Rattle.jp_node.specs.Index.{place_of};
ghost use Rattle.jp_node.specs.Nodes.{items_at};
ghost use Rattle.jp_node.specs.Part.{part_value};

use crate::part::Part;

/// The place of an index in an array of this length: a negative one counts from the end (RFC 9535, 2.3.3).
pub fn place(index: i64, len: u32) -> Option<u32>
    ensures { option_to_list result ≡ place_of index len }
{
    let distance = index.unsigned_abs();
    let len = u64::from(len);
    if index >= 0 && distance < len {
        Some(distance as u32)
    } else if index < 0 && distance <= len {
        Some((len - distance) as u32)
    } else {
        None
    }
}

/// Where the item at an index of a value is, if there is one. Items are counted only for an index from the
/// end: any other is the place, and perhaps no item stands there.
pub fn place_in(index: i64, value: Part<'_>) -> Option<u32>
    ensures { (at : Location) → items_at (node at (part_value value.entry)) (option_to_list result)
        ≡ items_at (node at (part_value value.entry)) (index_places index (part_value value.entry)) }
{
    if index < 0 {
        return place(index, value.item_count());
    }
    // A place has 32 bits, and no array has so many items.
    if index > i64::from(u32::MAX) {
        return None;
    }
    Some(index as u32)
}
