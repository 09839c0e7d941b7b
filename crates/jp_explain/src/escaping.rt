//! A text as a terminal shows it.

ghost use Rattle.std.specs.Prelude.{◌≡◌, true, IfOk};
ghost use Rattle.std.specs.Str.{chars};
ghost use Rattle.jp_tree.specs.View.{text_of};
ghost use Rattle.jp_explain.specs.Picture.{is_shown};

use crate::line::PlainLine;
use std::alloc::{AllocError, Global};

/// The text for a terminal, in one line: an escape stands in the place of each control character, line feeds
/// too, and of each character that shows nothing or changes how others stand.
///
/// # Errors
///
/// `AllocError` where a growth of memory was refused.
pub fn escaped(alloc: Global, text: &str) -> Result<String, AllocError>
    // No such character is among those that it gives.
    ensures shown { IfOk result (λ s. is_shown (text_of s) ≡ true) }
    // A text without them stays as it is.
    ensures same { is_shown (chars text.now) ≡ true → IfOk result (λ s. text_of s ≡ chars text.now) }
{
    let mut line = PlainLine::new(alloc);
    line.push_text(text)?;
    Ok(line.into_text())
}
