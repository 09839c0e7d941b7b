//! Texts that grow.

ghost use Rattle.std.specs.Prelude.{◌≡◌, ◌<◌, ◌/◌, ◌%◌, ◌∷◌, ◌++◌, [], OnOk};
ghost use Rattle.jp_tree.specs.View.{text_of};
ghost use Rattle.jp_node.specs.Path.{hex_digit as hex_digit_of};

use std::alloc::AllocError;

/// One more character at the end.
pub(crate) fn push_character(text: &mut String, c: char) -> Result<(), AllocError>
    ensures { OnOk result (text_of text.new ≡ text_of text.old ++ c ∷ []) }
{
    text.push(c)
}

/// A backslash and a letter.
pub(crate) fn push_escape(text: &mut String, letter: char) -> Result<(), AllocError>
    ensures { OnOk result (text_of text.new ≡ text_of text.old ++ 92 ∷ letter ∷ []) }
{
    push_character(text, '\\')?;
    push_character(text, letter)
}

/// `\u00` and the two hexadecimal digits of a control character.
pub(crate) fn push_control(text: &mut String, c: char) -> Result<(), AllocError>
    requires { c < 32 }
    ensures { OnOk result (text_of text.new ≡ text_of text.old
        ++ 92 ∷ 117 ∷ 48 ∷ 48 ∷ hex_digit_of (c / 16) ∷ hex_digit_of (c % 16) ∷ []) }
{
    push_escape(text, 'u')?;
    push_character(text, '0')?;
    push_character(text, '0')?;
    push_character(text, hex_digit(c as u32 / 16))?;
    push_character(text, hex_digit(c as u32 % 16))
}

/// A hexadecimal digit in lower case.
fn hex_digit(value: u32) -> char
    requires { value < 16 }
    ensures { result ≡ hex_digit_of value }
{
    let digit = if value < 10 {
        b'0' + value as u8
    } else {
        b'a' - 10 + value as u8
    };
    digit as char
}
