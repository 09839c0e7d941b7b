//! Texts that grow.

ghost use Rattle.std.specs.Prelude.{◌≡◌, ◌∷◌, ◌++◌, [], OnOk};
ghost use Rattle.std.specs.Str.{chars};
ghost use Rattle.jp_tree.specs.View.{text_of};

use std::alloc::AllocError;

/// One more character at the end.
pub(crate) fn push_character(text: &mut String, c: char) -> Result<(), AllocError>
    ensures { OnOk result (text_of text.new ≡ text_of text.old ++ c ∷ []) }
{
    text.push(c)
}

/// More text at the end.
pub(crate) fn push_text(text: &mut String, more: &str) -> Result<(), AllocError>
    ensures { OnOk result (text_of text.new ≡ text_of text.old ++ chars more.now) }
{
    text.push_str(more)
}
