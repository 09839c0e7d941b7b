//! Texts with escapes (RFC 8259, 7).

ghost use Rattle.std.specs.Prelude.{◌≡◌, ◌≤◌, ◌<◌, ◌+◌, ◌^◌, ◌++◌, true, Some, length, get_or};
ghost use Rattle.std.specs.Prelude.{IfSome, IsTrue};
ghost use Rattle.std.specs.Char.{digit_value, encode_utf8};
ghost use Rattle.json.specs.Run.{is_plain};
ghost use Rattle.json.specs.Text.{short_escape};
ghost use Rattle.jp_flat_nodes.specs.inner.Reads.{IsEscape, IsUnescaped, IsUnit, IsWritten};

use crate::bytes::{byte_at, plain_end};
use crate::limits::MAX_TEXT;
use crate::node::REFUSED;

/// The character that an escape stands for, and the place behind it.
#[derive(Clone, Copy, Drop)]
struct Escape {
    letter: char,
    end: usize,
}

/// Where a text stands without its escapes, how many bytes it has, and the place of the quote that ends it in
/// the line.
#[derive(Clone, Copy, Drop)]
pub(crate) struct Unescaped {
    pub(crate) from: u32,
    pub(crate) count: u32,
    pub(crate) stop: usize,
}

/// The byte that a backslash and this letter stand for.
#[tactic(auto, unfolding(json::specs::Text::short_escape))]
fn short_byte(letter: u8) -> Option<u8>
    ensures value { IfSome result (λ b. short_escape letter ≡ Some b) }
    ensures small { IfSome result (λ b. (b < 128) × (0 < letter) × (letter < 117)) }
{
    match letter {
        b'"' => Some(b'"'),
        b'\\' => Some(b'\\'),
        b'/' => Some(b'/'),
        b'b' => Some(8),
        b'f' => Some(12),
        b'n' => Some(10),
        b'r' => Some(13),
        b't' => Some(9),
        _ => None,
    }
}

/// The value of a hexadecimal digit, and 16 of any other byte.
fn hex_digit(digit: u8) -> u32
    ensures value { result < 16 → digit_value digit ≡ result }
    ensures plain { result < 16 → is_plain digit ≡ true }
{
    match digit {
        b'0'..=b'9' => (digit - b'0') as u32,
        b'A'..=b'F' => (digit - b'A') as u32 + 10,
        b'a'..=b'f' => (digit - b'a') as u32 + 10,
        _ => 16,
    }
}

/// The code unit that four hexadecimal digits spell.
fn hex_unit(line: &[u8], at: usize) -> Option<u32>
    requires { at + 4 ≤ length line.now }
    ensures { IfSome result (λ u. IsUnit line.now at u) }
{
    let (a, b, c, d) = (
        hex_digit(line[at]),
        hex_digit(line[at + 1]),
        hex_digit(line[at + 2]),
        hex_digit(line[at + 3]),
    );
    if (a < 16) & (b < 16) & (c < 16) & (d < 16) {
        Some(a * 4096 + b * 256 + c * 16 + d)
    } else {
        None
    }
}

/// What the escape stands for that begins here with this high surrogate, where a low one is behind it.
fn read_pair(line: &[u8], at: usize, high: u32) -> Option<Escape>
    requires place { (length line.now < 2 ^ 32) × (at + 6 ≤ length line.now) }
    requires escape { (get_or line.now at 0 ≡ 92) × (get_or line.now (at + 1) 0 ≡ 117) }
    requires high { (55296 ≤ high) × (high < 56320) × IsUnit line.now (at + 2) high }
    ensures { IfSome result (λ e. IsEscape line.now at e.letter e.end) }
{
    if line.len() - at < 12 || line[at + 6] != b'\\' || line[at + 7] != b'u' {
        return None;
    }
    let low = hex_unit(line, at + 8)?;
    if low < 0xdc00 || low > 0xdfff {
        return None;
    }
    let letter = char::from_u32(0x10000 + (high - 0xd800) * 1024 + (low - 0xdc00))?;
    Some(Escape {
        letter,
        end: at + 12,
    })
}

/// What the escape stands for that begins here with `\u`.
fn read_unit(line: &[u8], at: usize) -> Option<Escape>
    requires place { (length line.now < 2 ^ 32) × (at + 1 < length line.now) }
    requires escape { (get_or line.now at 0 ≡ 92) × (get_or line.now (at + 1) 0 ≡ 117) }
    ensures { IfSome result (λ e. IsEscape line.now at e.letter e.end) }
{
    if line.len() - at < 6 {
        return None;
    }
    let unit = hex_unit(line, at + 2)?;
    if unit >= 0xd800 && unit < 0xdc00 {
        return read_pair(line, at, unit);
    }
    let letter = char::from_u32(unit)?;
    Some(Escape {
        letter,
        end: at + 6,
    })
}

/// What the escape that begins here stands for.
fn read_escape(line: &[u8], at: usize) -> Option<Escape>
    requires { (length line.now < 2 ^ 32) × (at < length line.now) × (get_or line.now at 0 ≡ 92) }
    ensures { IfSome result (λ e. IsEscape line.now at e.letter e.end) }
{
    let letter = byte_at(line, at + 1);
    if letter == b'u' {
        return read_unit(line, at);
    }
    let byte = short_byte(letter)?;
    Some(Escape {
        letter: byte as char,
        end: at + 2,
    })
}

/// Puts a character behind the texts. `false` if there is no memory for it.
fn put_letter(texts: &mut Vec<u8>, letter: char) -> bool
    ensures { IsTrue result → texts.new.items ≡ texts.old.items ++ encode_utf8 letter }
{
    let mut bytes = [0; 4];
    texts
        .extend_from_slice(letter.encode_utf8(&mut bytes).as_bytes())
        .is_ok()
}

/// Puts the text that begins here behind the others, without its escapes, and gives the place of the quote
/// that ends it, or `REFUSED`.
fn unescaped_end(line: &[u8], from: usize, texts: &mut Vec<u8>) -> usize
    requires { (length line.now < 2 ^ 32) × (from ≤ length line.now) }
    ensures written { result < length line.now
        → IsWritten line.now from result texts.old.items texts.new.items }
    ensures quote { result < length line.now → get_or line.now result 0 ≡ 34 }
{
    let mut at = from;
    loop {
        let stop = plain_end(line, at);
        if texts.extend_from_slice(&line[at..stop]).is_err() {
            return REFUSED;
        }
        match byte_at(line, stop) {
            b'"' => return stop,
            b'\\' => {
                let Some(escape) = read_escape(line, stop) else {
                    return REFUSED;
                };
                if !put_letter(texts, escape.letter) {
                    return REFUSED;
                }
                at = escape.end;
            }
            _ => return REFUSED,
        }
    }
}

/// Puts the text that begins here behind the others, without its escapes, if it is read so.
#[inline(never)]
pub(crate) fn unescape(line: &[u8], from: usize, texts: &mut Vec<u8>) -> Option<Unescaped>
    requires { (length line.now < 2 ^ 32) × (from ≤ length line.now) }
    ensures { IfSome result (λ u. IsUnescaped line.now from u.stop
        texts.old.items texts.new.items u.from u.count) }
{
    let begin = texts.len();
    let stop = unescaped_end(line, from, texts);
    let end = texts.len();
    if stop >= line.len() || end > MAX_TEXT {
        return None;
    }
    Some(Unescaped {
        from: begin as u32,
        count: (end - begin) as u32,
        stop,
    })
}
