//! Items of an array.

ghost use Rattle.std.specs.Prelude.{◌≡◌, ◌≤◌, [], ◌∷◌, drop, length, MatchOption};
ghost use Rattle.jp_doc.specs.Reading.{max_line};
ghost use Rattle.jp_node.specs.Inside.{item_values};
ghost use Rattle.jp_node.specs.Part.{part_value};

use crate::part::Part;
use jp_flat::FlatItems;

/// Items of an array, from one on to the last.
#[derive(Clone, Copy)]
pub struct Items<'v> {
    /// The items.
    pub items: FlatItems<'v>,
}

impl<'v> Items<'v> {
    /// The first, and those behind it.
    // Each turn of a loop over items takes one so: handed out by a call, it would go by memory.
    #[inline(always)]
    pub fn split_first(self) -> Option<(Part<'v>, Items<'v>)>
        ensures { MatchOption result (item_values self.entry ≡ [])
            (λ p. item_values self.entry ≡ part_value p.0 ∷ item_values p.1) }
    {
        match self.items.split_first() {
            None => None,
            Some((value, items)) => Some((Part { value }, Items { items })),
        }
    }

    /// How many these are. It goes over them.
    pub fn count(self) -> u32
        ensures count { result ≡ length (item_values self.entry) }
        ensures short { result ≤ max_line }
    {
        self.items.count()
    }

    /// Those behind the first so many. It goes over these.
    pub fn skip(self, count: u32) -> Items<'v>
        ensures { item_values result ≡ drop count (item_values self.entry) }
    {
        let mut left = self;
        for i in 0..count {
            match left.split_first() {
                Some((_, others)) => left = others,
                None => return left,
            }
        }
        left
    }
}
