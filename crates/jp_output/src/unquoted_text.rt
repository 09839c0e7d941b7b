//! The text of a value where a text stands without its quotes, appended.

ghost use Rattle.std.specs.Prelude.{◌≡◌, ◌≤◌, ◌<◌, ◌++◌, ◌∷◌, [], ◌/◌, ◌%◌, length, option_map, take, OnOk};
ghost use Rattle.std.specs.Prelude.{encode_utf8_all};
ghost use Rattle.std.specs.Char.{digit_char};
ghost use Rattle.std.specs.List.{flat_map};
ghost use Rattle.std.specs.Str.{chars};
ghost use Rattle.jp_flat.specs.Value.{text_in};
ghost use Rattle.jp_node.specs.Part.{part_value};
ghost use Rattle.jp_output.specs.UnquotedText.{unquoted_byte, unquoted_text};

use crate::value_text::append_value;
use jp_node::Part;
use std::alloc::{AllocError, Global};

/// Appends a text without its quotes, and of any other value its compact text (RFC 8259), with a scratch
/// buffer for pieces of it.
pub(crate) fn append_unquoted(
    alloc: Global,
    value: Part<'_>,
    scratch: &mut Vec<u8>,
    out: &mut Vec<u8>,
) -> Result<(), AllocError>
    ensures { OnOk result (out.new.items ≡ out.old.items ++ unquoted_text (part_value value.entry)) }
{
    match text_of(value) {
        Some(text) => append_text(text, out),
        None => append_value(alloc, value.value, scratch, out),
    }
}

/// The text that a value is, if it is one.
pub(crate) fn text_of<'v>(value: Part<'v>) -> Option<&'v str>
    ensures { option_map (λ s. chars s.now) result ≡ text_in (part_value value.entry) }
{
    value.value.text()
}

/// Appends a text with the escapes of JSON (RFC 8259, 7) but that of the quotation mark.
///
/// What stands between two escapes is copied at once.
fn append_text(text: &str, out: &mut Vec<u8>) -> Result<(), AllocError>
    ensures { OnOk result (out.new.items
        ≡ out.old.items ++ flat_map unquoted_byte (encode_utf8_all (chars text.now))) }
{
    let mut rest = text.as_bytes();
    loop {
        let (plain, others) = rest.split_at(plain_length(rest));
        out.extend_from_slice(plain)?;
        let Some((byte, behind)) = others.split_first() else {
            return Ok(());
        };
        append_byte(*byte, out)?;
        rest = behind;
    }
}

/// How many bytes stand before the first that is escaped.
fn plain_length(bytes: &[u8]) -> usize
    ensures within { result ≤ length bytes.now }
    ensures plain { flat_map unquoted_byte (take result bytes.now) ≡ take result bytes.now }
{
    for (i, byte) in bytes.iter().enumerate() {
        if *byte < 32 || *byte == b'\\' {
            return i;
        }
    }
    bytes.len()
}

/// Appends a byte, or its escape.
#[tactic(auto, unfolding(json::specs::Print::escape_byte))]
fn append_byte(byte: u8, out: &mut Vec<u8>) -> Result<(), AllocError>
    ensures { OnOk result (out.new.items ≡ out.old.items ++ unquoted_byte byte) }
{
    match byte {
        b'\\' => out.extend_from_slice(b"\\\\"),
        8 => out.extend_from_slice(b"\\b"),
        b'\t' => out.extend_from_slice(b"\\t"),
        b'\n' => out.extend_from_slice(b"\\n"),
        12 => out.extend_from_slice(b"\\f"),
        b'\r' => out.extend_from_slice(b"\\r"),
        0..=31 => append_control(byte, out),
        _ => {
            out.push(byte)?;
            Ok(())
        }
    }
}

/// Appends `\u00` and two hexadecimal digits.
fn append_control(byte: u8, out: &mut Vec<u8>) -> Result<(), AllocError>
    requires { byte < 32 }
    ensures { OnOk result (out.new.items
        ≡ out.old.items ++ (92 ∷ 117 ∷ 48 ∷ 48 ∷ digit_char (byte / 16) ∷ digit_char (byte % 16) ∷ [])) }
{
    out.extend_from_slice(&[
        b'\\',
        b'u',
        b'0',
        b'0',
        hex_digit(byte / 16),
        hex_digit(byte % 16),
    ])
}

/// A hexadecimal digit in lower case.
fn hex_digit(value: u8) -> u8
    requires { value < 16 }
    ensures { result ≡ digit_char value }
{
    if value < 10 {
        b'0' + value
    } else {
        b'a' - 10 + value
    }
}
