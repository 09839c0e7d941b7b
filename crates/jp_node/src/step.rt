//! The text of one step of a normalized path (RFC 9535, 2.7).

ghost use Rattle.std.specs.Prelude.{◌≡◌, ◌++◌, ◌<◌, ◌∷◌, ◌/◌, ◌%◌, [], OnOk, encode_utf8_all};
ghost use Rattle.std.specs.List.{flat_map};
ghost use Rattle.std.specs.Str.{chars, IsUtf8};
ghost use Rattle.jp_doc.specs.Location as at;
ghost use Rattle.jp_node.specs.Appended.{Extends};
ghost use Rattle.jp_node.specs.Links.{link_bytes};
ghost use Rattle.jp_node.specs.Path.{step_text, escaped, hex_digit as hex_digit_of};

use crate::bare_text::is_bare;
use crate::link::Link;
use itoa::Buffer;
use std::alloc::AllocError;

/// Appends the text that a link adds to a path: `['name']` or `[index]`.
///
/// After an `AllocError`, which says that a growth was refused, `out` has what it had, and may have more
/// behind.
pub fn append_link(link: Link<'_>, out: &mut Vec<u8>) -> Result<(), AllocError>
    ensures ok { OnOk result (out.new.items ≡ out.old.items ++ link_bytes link.entry) }
    ensures text { OnOk result (IsUtf8 out.old.items → IsUtf8 out.new.items) }
    ensures kept { Extends out.old.items out.new.items }
{
    match link {
        Link::Name(name) => append_name(name, out),
        Link::Index(index) => append_index(index, out),
    }
}

/// Appends `['name']`.
fn append_name(text: &str, out: &mut Vec<u8>) -> Result<(), AllocError>
    ensures ok { OnOk result (out.new.items ≡ out.old.items ++ encode_utf8_all
        (step_text (at.name (chars text.now)))) }
    ensures text { OnOk result (IsUtf8 out.old.items → IsUtf8 out.new.items) }
    ensures kept { Extends out.old.items out.new.items }
{
    out.extend_from_slice(b"['")?;
    append_escaped(text, out)?;
    out.extend_from_slice(b"']")?;
    Ok(())
}

/// Appends `[index]`.
fn append_index(index: u32, out: &mut Vec<u8>) -> Result<(), AllocError>
    ensures ok { OnOk result (out.new.items ≡ out.old.items ++ encode_utf8_all (step_text (at.index index))) }
    ensures text { OnOk result (IsUtf8 out.old.items → IsUtf8 out.new.items) }
    ensures kept { Extends out.old.items out.new.items }
{
    let mut buffer = Buffer::new();
    out.push(b'[')?;
    out.extend_from_slice(buffer.format(index).as_bytes())?;
    out.push(b']')?;
    Ok(())
}

/// Appends a name with its escapes. The bytes of characters beyond ASCII stand bare.
fn append_escaped(name: &str, out: &mut Vec<u8>) -> Result<(), AllocError>
    ensures ok { OnOk result (out.new.items ≡ out.old.items ++ flat_map escaped name.now) }
    ensures kept { Extends out.old.items out.new.items }
{
    // Most names have no escape: they are copied at once, and not byte by byte.
    if is_bare(name.as_bytes(), b'\'') {
        return out.extend_from_slice(name.as_bytes());
    }
    for byte in name.as_bytes() {
        append_byte(*byte, out)?;
    }
    Ok(())
}

/// Appends a byte, or its escape.
fn append_byte(byte: u8, out: &mut Vec<u8>) -> Result<(), AllocError>
    ensures ok { OnOk result (out.new.items ≡ out.old.items ++ escaped byte) }
    ensures kept { Extends out.old.items out.new.items }
{
    match byte {
        b'\'' => out.extend_from_slice(b"\\'"),
        b'\\' => out.extend_from_slice(b"\\\\"),
        8 => out.extend_from_slice(b"\\b"),
        b'\t' => out.extend_from_slice(b"\\t"),
        b'\n' => out.extend_from_slice(b"\\n"),
        12 => out.extend_from_slice(b"\\f"),
        b'\r' => out.extend_from_slice(b"\\r"),
        0..=31 => append_control(byte, out),
        _ => {
            out.push(byte)?;
            Ok(())
        }
    }
}

/// Appends `\u00` and two hexadecimal digits.
fn append_control(byte: u8, out: &mut Vec<u8>) -> Result<(), AllocError>
    requires { byte < 32 }
    ensures kept { Extends out.old.items out.new.items }
    ensures ok { OnOk result (out.new.items
        ≡ out.old.items ++ (92 ∷ 117 ∷ 48 ∷ 48 ∷ hex_digit_of (byte / 16) ∷ hex_digit_of (byte % 16) ∷ [])) }
{
    out.extend_from_slice(&[
        b'\\',
        b'u',
        b'0',
        b'0',
        hex_digit(byte / 16),
        hex_digit(byte % 16),
    ])
}

/// A hexadecimal digit in lower case.
fn hex_digit(value: u8) -> u8
    requires { value < 16 }
    ensures { result ≡ hex_digit_of value }
{
    if value < 10 {
        b'0' + value
    } else {
        b'a' - 10 + value
    }
}
