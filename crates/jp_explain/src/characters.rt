//! Which characters a terminal is given, and which stand there as escapes.

ghost use Rattle.std.specs.Prelude.{◌≡◌, false};
ghost use Rattle.jp_explain.specs.Picture.{is_control, is_separator, is_escaped};

use crate::sizes::ESCAPE_COLUMNS;
use unicode::properties::is_default_ignorable_code_point;
use unicode_width::UnicodeWidthChar;

fn is_control(c: char) -> bool
    ensures { result ≡ is_control c }
{
    c <= '\u{1f}' || matches!(c, '\u{7f}'..='\u{9f}')
}

fn is_separator(c: char) -> bool
    ensures { result ≡ is_separator c }
{
    matches!(c, '\u{2028}' | '\u{2029}')
}

/// Whether an escape is shown in its place.
pub(crate) fn is_escaped(c: char) -> bool
    ensures { result ≡ is_escaped c }
{
    is_control(c) || is_separator(c) || is_default_ignorable_code_point(c)
}

/// How many columns the character takes as it is shown.
pub(crate) fn columns(c: char) -> usize {
    if is_escaped(c) {
        ESCAPE_COLUMNS.saturating_mul(c.len_utf16())
    } else {
        c.width().unwrap_or(0)
    }
}

/// A hexadecimal digit.
#[tactic(auto, using(crate::proofs::Ignorable::not_ignorable))]
pub(crate) fn hex_digit(digit: u32) -> char
    ensures { is_escaped result ≡ false }
{
    match digit {
        0 => '0',
        1 => '1',
        2 => '2',
        3 => '3',
        4 => '4',
        5 => '5',
        6 => '6',
        7 => '7',
        8 => '8',
        9 => '9',
        10 => 'a',
        11 => 'b',
        12 => 'c',
        13 => 'd',
        14 => 'e',
        _ => 'f',
    }
}
