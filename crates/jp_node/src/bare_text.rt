//! Whether a text between quotes has an escape, found by vectors of its bytes.

ghost use Rattle.std.specs.Prelude.{◌≡◌, ◌≤◌, length, map};
ghost use Rattle.std.specs.List.{list_all};
ghost use Rattle.std.specs.Simd.Lanes.{mask_l};
ghost use Rattle.jp_node.specs.Bare.{is_escaped, stands_bare};

use std::simd::prelude::*;

/// How many bytes a vector has.
const LANES: usize = 16;

/// How many bytes those of shorter texts have.
const HALF: usize = LANES / 2;

/// How many bytes those of the shortest have.
const QUARTER: usize = LANES / 4;

/// Whether each byte of a text between these quotes stands as it is: none is the quote, a backslash or below
/// the space.
///
/// Most names and many texts are shorter than a vector: two of half or a quarter of its size cover them, of
/// which the second ends where the text does.
#[inline]
pub fn is_bare(bytes: &[u8], quote: u8) -> bool
    ensures { result ≡ list_all (stands_bare quote) bytes.now }
{
    let count = bytes.len();
    if count >= LANES {
        return is_long_bare(bytes, quote);
    }
    if count >= HALF {
        let first = escapes(u8x8::from_slice(bytes), quote);
        let last = escapes(u8x8::from_slice(&bytes[count - HALF..]), quote);
        return first | last == 0;
    }
    if count >= QUARTER {
        let first = escapes(u8x4::from_slice(bytes), quote);
        let last = escapes(u8x4::from_slice(&bytes[count - QUARTER..]), quote);
        return first | last == 0;
    }
    is_short_bare(bytes, quote)
}

/// The same of at least as many bytes as a vector has. The last vector ends where the text does.
fn is_long_bare(bytes: &[u8], quote: u8) -> bool
    requires { 16 ≤ length bytes.now }
    ensures { result ≡ list_all (stands_bare quote) bytes.now }
{
    let last = bytes.len() - LANES;
    let mut at = 0;
    while at < last {
        if escapes(u8x16::from_slice(&bytes[at..]), quote) != 0 {
            return false;
        }
        at += LANES;
    }
    escapes(u8x16::from_slice(&bytes[last..]), quote) == 0
}

/// The same, byte by byte.
fn is_short_bare(bytes: &[u8], quote: u8) -> bool
    ensures { result ≡ list_all (stands_bare quote) bytes.now }
{
    for byte in bytes {
        if *byte == quote || *byte == b'\\' || *byte < b' ' {
            return false;
        }
    }
    true
}

/// Which bytes of a vector are escaped: a bit for each, the first the lowest.
#[inline(always)]
fn escapes<const N: usize>(bytes: Simd<u8, N>, quote: u8) -> u64
    requires { N ≤ 64 }
    ensures { result ≡ mask_l (map (is_escaped quote) bytes.entry) }
{
    (bytes.simd_eq(Simd::splat(quote))
        | bytes.simd_eq(Simd::splat(b'\\'))
        | bytes.simd_lt(Simd::splat(b' '))).to_bitmask()
}
