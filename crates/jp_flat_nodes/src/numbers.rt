//! Numbers.

ghost use Rattle.std.specs.Prelude.{◌≡◌, ◌≤◌, ◌<◌, ◌^◌, true, length, get_or};
ghost use Rattle.jp_flat_nodes.specs.inner.Reads.{IsDigits, IsExponent, IsFraction, IsUnsigned, ReadsOn};
ghost use Rattle.jp_flat_nodes.specs.inner.Reads.{behind_sign};

use crate::bytes::{byte_at, digits_end};
use crate::limits::{MAX_BYTES, MAX_DIGITS, MAX_EXPONENT};
use crate::node::{FlatNode, FlatNodes, REFUSED, put};

/// Where the digits end that begin here, or `REFUSED` where there are none or too many, or a zero stands
/// before others.
#[inline(always)]
fn whole_end(line: &[u8], from: usize) -> usize
    requires { (length line.now < 2 ^ 32) × (from ≤ length line.now) }
    ensures { result ≤ length line.now → IsDigits line.now from result }
{
    let end = digits_end(line, from);
    if end == from || end - from > MAX_DIGITS {
        return REFUSED;
    }
    if byte_at(line, from) == b'0' && end > from + 1 {
        return REFUSED;
    }
    end
}

/// Where the fraction ends that begins here, if one does, or `REFUSED` where no digit is behind its point.
fn fraction_end(line: &[u8], from: usize) -> usize
    requires { (length line.now < 2 ^ 32) × (from ≤ length line.now) }
    ensures { result ≤ length line.now → IsFraction line.now from result }
{
    if byte_at(line, from) != b'.' {
        return from;
    }
    let end = digits_end(line, from + 1);
    if end == from + 1 {
        return REFUSED;
    }
    end
}

/// Where the digits of an exponent begin: here, or behind its sign.
fn exponent_start(line: &[u8], from: usize) -> usize
    requires { (length line.now < 2 ^ 32) × (from ≤ length line.now) }
    ensures { (result ≡ behind_sign line.now from) × (result ≤ length line.now) }
{
    let first = byte_at(line, from);
    if first == b'-' || first == b'+' {
        from + 1
    } else {
        from
    }
}

/// Where the exponent ends that begins here, if one does, or `REFUSED` where it has no digit or too many.
fn exponent_end(line: &[u8], from: usize) -> usize
    requires { (length line.now < 2 ^ 32) × (from ≤ length line.now) }
    ensures { result ≤ length line.now → IsExponent line.now from result }
{
    let first = byte_at(line, from);
    if first != b'e' && first != b'E' {
        return from;
    }
    let start = exponent_start(line, from + 1);
    let end = digits_end(line, start);
    if end == start || end - from > MAX_EXPONENT {
        return REFUSED;
    }
    end
}

/// Where the number ends of which the digits before the point end here, with a fraction and an exponent.
fn written_end(line: &[u8], from: usize, whole: usize) -> usize
    requires { (length line.now < 2 ^ 32) × (whole ≤ length line.now) × IsDigits line.now from whole }
    ensures { result ≤ length line.now → IsUnsigned line.now true from result }
{
    let point = fraction_end(line, whole);
    if point > line.len() {
        return REFUSED;
    }
    let end = exponent_end(line, point);
    if end > line.len() || end - from > MAX_BYTES {
        return REFUSED;
    }
    end
}

/// Where the number ends that begins here with a digit, or `REFUSED`.
#[inline(always)]
fn unsigned_end(line: &[u8], from: usize, decimals: bool) -> usize
    requires { (length line.now < 2 ^ 32) × (from ≤ length line.now) }
    ensures { result ≤ length line.now → IsUnsigned line.now decimals from result }
{
    let whole = whole_end(line, from);
    if !decimals || whole > line.len() {
        return whole;
    }
    written_end(line, from, whole)
}

/// Reads a number that begins with a digit.
#[inline(always)]
fn unsigned(line: &[u8], at: usize, out: &mut FlatNodes, depth: u32, decimals: bool) -> usize
    requires { (length line.now < 2 ^ 32) × (at ≤ length line.now) }
    ensures { result ≤ length line.now → ReadsOn line.now decimals at result depth out.old out.new }
{
    let end = unsigned_end(line, at, decimals);
    if end > line.len() {
        return REFUSED;
    }
    put(
        &mut out.nodes,
        FlatNode::Number(at as u32, (end - at) as u32),
        end,
    )
}

/// Reads a number behind a minus. It begins with no 0 where numbers are whole: `-0` is no whole number.
#[inline(always)]
fn negative(line: &[u8], at: usize, out: &mut FlatNodes, depth: u32, decimals: bool) -> usize
    requires { (length line.now < 2 ^ 32) × (at < length line.now) × (get_or line.now at 0 ≡ 45) }
    ensures { result ≤ length line.now → ReadsOn line.now decimals at result depth out.old out.new }
{
    let end = unsigned_end(line, at + 1, decimals);
    if end > line.len() || !decimals && byte_at(line, at + 1) == b'0' {
        return REFUSED;
    }
    put(
        &mut out.nodes,
        FlatNode::Number(at as u32, (end - at) as u32),
        end,
    )
}

/// Reads a number: the place behind it, or `REFUSED`.
#[inline(always)]
pub(crate) fn number(
    line: &[u8],
    at: usize,
    out: &mut FlatNodes,
    depth: u32,
    decimals: bool,
) -> usize
    requires { length line.now < 2 ^ 32 }
    ensures { result ≤ length line.now → ReadsOn line.now decimals at result depth out.old out.new }
{
    if at >= line.len() {
        return REFUSED;
    }
    if line[at] == b'-' {
        negative(line, at, out, depth, decimals)
    } else {
        unsigned(line, at, out, depth, decimals)
    }
}
