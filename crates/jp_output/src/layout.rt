//! What stands around what is written: a head before lines of nodes, and an ending behind values; and the
//! fields of rows.

ghost use Rattle.std.specs.Prelude.{◌≡◌, []};
ghost use Rattle.jp_output.specs.Layouts.{ending_byte};

use crate::field::FieldList;
use crate::head::Head;

/// What ends the text of each value.
#[derive(Clone, Copy, Debug, PartialEq, Eq, Drop)]
pub enum Ending {
    /// A line feed, so that each text is a line.
    LineFeed,
    /// U+0000, which is one byte, 0: `xargs -0` and `sort -z` divide texts at it.
    Null,
}

impl Ending {
    /// Its byte.
    pub fn byte(self) -> u8
        ensures { result ≡ ending_byte self }
    {
        match self {
            Ending::LineFeed => b'\n',
            Ending::Null => 0,
        }
    }
}

/// What stands around what is written, in each form as far as it has such a thing.
#[derive(Drop)]
pub struct Layout {
    /// What stands before each line, in a form whose lines have a head.
    pub head: Head,
    /// What ends the text of each value, in a form of values.
    pub ending: Ending,
    /// What is written of each node, in the form of rows.
    pub fields: FieldList,
}

impl Layout {
    /// No head, line feeds and no fields. It takes no memory.
    pub fn plain() -> Layout
        ensures head { result.head ≡ [] }
        ensures ending { result.ending ≡ Ending.LineFeed }
        ensures fields { result.fields ≡ [] }
    {
        Layout {
            head: Head::none(),
            ending: Ending::LineFeed,
            fields: FieldList::none(),
        }
    }
}
