//! Runs of bytes over which a document goes on, 16 bytes at a time.

ghost use Rattle.std.specs.Prelude.{◌≡◌, ◌+◌, ◌≤◌, false, ℕ, length, take, drop, map};
ghost use Rattle.std.specs.Simd.Lanes.{mask_l};
ghost use Rattle.jp_documents.specs.Documents.{cut_at, onto};
ghost use Rattle.jp_documents.specs.inner.Finding as spec;
ghost use Rattle.jp_documents.specs.inner.Finding.{depth_of, matters_in_brackets, matters_in_text, run_len};
ghost use Rattle.jp_documents.specs.declared.place.Lead as code;
ghost use Rattle.jp_documents.specs.declared.place.Lead.TheVariants.{Within};
ghost use Rattle.jp_documents.specs.declared.place.Place.TheVariants.{Between, InBrackets};

use crate::place::{Lead, Place, is_closing, is_opening, lead_behind};
use std::simd::prelude::*;

/// How many bytes a vector has.
const LANES: usize = 16;

/// Which bytes of a vector matter in brackets: a bit for each, the first the lowest.
#[inline(always)]
fn brackets_mask(bytes: u8x16) -> u64
    ensures { result ≡ mask_l (map matters_in_brackets bytes) }
{
    (bytes.simd_eq(u8x16::splat(b'"'))
        | bytes.simd_eq(u8x16::splat(b'{'))
        | bytes.simd_eq(u8x16::splat(b'}'))
        | bytes.simd_eq(u8x16::splat(b'['))
        | bytes.simd_eq(u8x16::splat(b']'))).to_bitmask()
}

/// Which bytes of a vector matter in a string.
#[inline(always)]
fn text_mask(bytes: u8x16) -> u64
    ensures { result ≡ mask_l (map matters_in_text bytes) }
{
    (bytes.simd_eq(u8x16::splat(b'"'))
        | bytes.simd_eq(u8x16::splat(b'\\'))
        | bytes.simd_eq(u8x16::splat(b'\n'))).to_bitmask()
}

/// How many bytes there are before the first quote or bracket, or before the end.
#[inline(always)]
fn brackets_run(bytes: &[u8]) -> usize
    ensures value { result ≡ run_len matters_in_brackets bytes.now }
    ensures within { result ≤ length bytes.now }
{
    let mut at = 0;
    while bytes.len() - at >= LANES {
        let found = brackets_mask(u8x16::from_slice(&bytes[at..]));
        if found != 0 {
            return at + found.trailing_zeros() as usize;
        }
        at += LANES;
    }
    brackets_run_by_bytes(bytes, at)
}

/// The same, byte by byte, where the bytes before this place are known not to matter.
fn brackets_run_by_bytes(bytes: &[u8], from: usize) -> usize
    requires { from ≤ length bytes.now }
    ensures value { result ≡ from + run_len matters_in_brackets (drop from bytes.now) }
    ensures within { result ≤ length bytes.now }
{
    let mut at = from;
    while at < bytes.len()
        && bytes[at] != b'"'
        && !is_opening(bytes[at])
        && !is_closing(bytes[at])
    {
        at += 1;
    }
    at
}

/// How many bytes there are before the first quote, backslash or line feed, or before the end.
#[inline(always)]
fn text_run(bytes: &[u8]) -> usize
    ensures value { result ≡ run_len matters_in_text bytes.now }
    ensures within { result ≤ length bytes.now }
{
    let mut at = 0;
    while bytes.len() - at >= LANES {
        let found = text_mask(u8x16::from_slice(&bytes[at..]));
        if found != 0 {
            return at + found.trailing_zeros() as usize;
        }
        at += LANES;
    }
    text_run_by_bytes(bytes, at)
}

/// The same, byte by byte, where the bytes before this place are known not to matter.
fn text_run_by_bytes(bytes: &[u8], from: usize) -> usize
    requires { from ≤ length bytes.now }
    ensures value { result ≡ from + run_len matters_in_text (drop from bytes.now) }
    ensures within { result ≤ length bytes.now }
{
    let mut at = from;
    while at < bytes.len() && bytes[at] != b'"' && bytes[at] != b'\\' && bytes[at] != b'\n' {
        at += 1;
    }
    at
}

/// What leads on behind bytes in brackets that do not matter.
fn lead_over(lead: Lead, run: &[u8]) -> Lead
    ensures { result ≡ spec.lead_over lead run.now }
{
    let mut after = lead;
    for byte in run {
        after = lead_behind(after, *byte);
    }
    after
}

/// Whether the bytes behind a run ask what leads to them. Where they do not, anything but the front of a
/// line may stand for it: a closing bracket and a quote do the same wherever they stand, and an opening
/// bracket does but at the front of a line.
fn asks_lead(run: &[u8], rest: &[u8]) -> bool
    ensures { result ≡ false → (lead : code.Lead) (depth : ℕ) →
        cut_at (InBrackets depth (spec.lead_over lead run.now)) rest.now
        ≡ cut_at (InBrackets depth Within) rest.now }
{
    match rest.first() {
        Some(byte) if *byte == b'"' || is_closing(*byte) => false,
        Some(byte) if is_opening(*byte) => match run.last() {
            Some(last) => *last == b'\n',
            None => true,
        },
        _ => true,
    }
}

/// How many bytes the document that is open takes before the first that matters, and where that one stands.
#[inline(always)]
pub(crate) fn passed(place: Place, bytes: &[u8]) -> (usize, Place)
    ensures within { result.0 ≤ length bytes.now }
    ensures cuts { cut_at place bytes.now
        ≡ onto (take result.0 bytes.now) (cut_at result.1 (drop result.0 bytes.now)) }
    ensures depth { depth_of result.1 ≡ depth_of place }
    ensures none { place ≡ Between → (result.0 ≡ 0) × (result.1 ≡ Between) }
    ensures between { result.1 ≡ Between → place ≡ Between }
{
    match place {
        Place::InBrackets(depth, lead) => {
            let (run, rest) = bytes.split_at(brackets_run(bytes));
            let leads = if asks_lead(run, rest) {
                lead_over(lead, run)
            } else {
                Lead::Within
            };
            (run.len(), Place::InBrackets(depth, leads))
        }
        Place::InText(depth) => (text_run(bytes), Place::InText(depth)),
        Place::Between | Place::InWord | Place::InEscape(_) => (0, place),
    }
}
