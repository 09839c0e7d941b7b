//! Bytes of a line.

ghost use Rattle.std.specs.Prelude.{◌≡◌, ◌≢◌, ◌+◌, ◌<◌, ◌≤◌, ◌++◌, ◌∷◌, ◌^◌, IsTrue, length, drop, get_or};
ghost use Rattle.std.specs.Prelude.{map};
ghost use Rattle.std.specs.Char.{is_ascii_digit};
ghost use Rattle.std.specs.List.{prefix_len};
ghost use Rattle.std.specs.Simd.Lanes.{mask_l};
ghost use Rattle.json.specs.Run.{is_plain, is_stop};
ghost use Rattle.jp_flat_nodes.specs.inner.Reads.{is_blank};

use std::simd::prelude::*;

/// How many bytes a vector has.
const LANES: usize = 16;

/// The byte at this place, and 0 behind the line.
#[inline(always)]
pub(crate) fn byte_at(line: &[u8], at: usize) -> u8
    ensures value { result ≡ get_or line.now at 0 }
    ensures within { result ≢ 0 → at < length line.now }
{
    if at < line.len() { line[at] } else { 0 }
}

/// Which bytes of a vector end a plain text: a bit for each, the first the lowest.
#[inline(always)]
fn stops(bytes: u8x16) -> u64
    ensures { result ≡ mask_l (map is_stop bytes) }
{
    (bytes.simd_eq(u8x16::splat(b'"'))
        | bytes.simd_eq(u8x16::splat(b'\\'))
        | bytes.simd_lt(u8x16::splat(0x20))).to_bitmask()
}

/// The first quote, backslash or control byte from here on, or the line's end.
#[inline(always)]
pub(crate) fn plain_end(line: &[u8], from: usize) -> usize
    requires { from ≤ length line.now }
    ensures value { result ≡ from + prefix_len is_plain (drop from line.now) }
    ensures within { result ≤ length line.now }
{
    let mut at = from;
    while line.len() - at >= LANES {
        let found = stops(u8x16::from_slice(&line[at..]));
        if found != 0 {
            return at + found.trailing_zeros() as usize;
        }
        at += LANES;
    }
    if line.len() < LANES {
        return plain_end_by_bytes(line, at);
    }
    plain_end_in_last(line, at)
}

/// The same, where fewer bytes are left than a vector has: the last vector of the line ends where the line
/// does, and what stands before the place in it is left out.
#[inline(always)]
fn plain_end_in_last(line: &[u8], from: usize) -> usize
    requires long { LANES ≤ length line.now }
    requires left { (from ≤ length line.now) × (length line.now < from + LANES) }
    ensures value { result ≡ from + prefix_len is_plain (drop from line.now) }
    ensures within { result ≤ length line.now }
{
    let last = line.len() - LANES;
    let found = stops(u8x16::from_slice(&line[last..])) >> (from - last) as u32;
    if found != 0 {
        return from + found.trailing_zeros() as usize;
    }
    line.len()
}

/// The same, byte by byte.
fn plain_end_by_bytes(line: &[u8], from: usize) -> usize
    requires { from ≤ length line.now }
    ensures value { result ≡ from + prefix_len is_plain (drop from line.now) }
    ensures within { result ≤ length line.now }
{
    let mut at = from;
    while at < line.len() && line[at] != b'"' && line[at] != b'\\' && line[at] >= 0x20 {
        at += 1;
    }
    at
}

/// The first byte from here on that is no digit, or the line's end.
#[inline(always)]
pub(crate) fn digits_end(line: &[u8], from: usize) -> usize
    requires { from ≤ length line.now }
    ensures value { result ≡ from + prefix_len is_ascii_digit (drop from line.now) }
    ensures within { result ≤ length line.now }
{
    let mut at = from;
    while at < line.len() && line[at].is_ascii_digit() {
        at += 1;
    }
    at
}

/// The first byte from here on that is neither a space nor a line feed, or the line's end. A place behind the
/// line stays as it is.
#[inline(always)]
pub(crate) fn blanks_end(line: &[u8], from: usize) -> usize
    ensures { result ≡ from + prefix_len is_blank (drop from line.now) }
{
    // Most lines have no blank: then nothing is called.
    if byte_at(line, from) > b' ' {
        return from;
    }
    blanks_end_by_bytes(line, from)
}

/// The same, byte by byte.
fn blanks_end_by_bytes(line: &[u8], from: usize) -> usize
    ensures { result ≡ from + prefix_len is_blank (drop from line.now) }
{
    let mut at = from;
    while at < line.len() && (line[at] == b' ' || line[at] == b'\n') {
        at += 1;
    }
    at
}

/// Whether these three bytes stand behind the place.
#[inline(always)]
pub(crate) fn goes_on(line: &[u8], at: usize, a: u8, b: u8, c: u8) -> bool
    requires { (length line.now < 2 ^ 32) × (at < length line.now) × (0 < a) × (0 < b) × (0 < c) }
    ensures { IsTrue result → (at + 4 ≤ length line.now)
        × (drop (at + 1) line.now ≡ a ∷ b ∷ c ∷ drop (at + 4) line.now) }
{
    byte_at(line, at + 1) == a && byte_at(line, at + 2) == b && byte_at(line, at + 3) == c
}
