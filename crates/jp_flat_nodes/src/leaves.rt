//! Values with nothing inside, and names.

ghost use Rattle.std.specs.Prelude.{◌≡◌, ◌≤◌, ◌<◌, ◌+◌, ◌^◌, ◌∷◌, IsTrue, length, drop, get_or};
ghost use Rattle.jp_flat_nodes.specs.inner.Reads.{IsPlainText, ReadsOn, ReadsKeyOn};

use crate::bytes::{byte_at, goes_on, plain_end};
use crate::escapes::unescape;
use crate::node::{FlatNode, FlatNodes, REFUSED, put};

/// The place of the quote that ends the text which begins here, where none of it is an escape.
#[inline(always)]
fn closing(line: &[u8], from: usize) -> usize
    requires { (length line.now < 2 ^ 32) × (from ≤ length line.now) }
    ensures { result < length line.now → IsPlainText line.now from result }
{
    let stop = plain_end(line, from);
    if byte_at(line, stop) == b'"' {
        stop
    } else {
        REFUSED
    }
}

/// Reads a text, which begins at a quote: the place behind it, or `REFUSED`.
#[inline(always)]
pub(crate) fn text(line: &[u8], at: usize, out: &mut FlatNodes, depth: u32, decimals: bool) -> usize
    requires { (length line.now < 2 ^ 32) × (get_or line.now at 0 ≡ 34) }
    ensures { result ≤ length line.now → ReadsOn line.now decimals at result depth out.old out.new }
{
    if at >= line.len() {
        return REFUSED;
    }
    let stop = closing(line, at + 1);
    if stop >= line.len() {
        return escaped_text(line, at, out, depth, decimals);
    }
    put(
        &mut out.nodes,
        FlatNode::Text(at as u32 + 1, (stop - at - 1) as u32),
        stop + 1,
    )
}

/// The same of one that may have escapes.
// Most texts have none: so this stands apart.
#[cold]
#[inline(never)]
fn escaped_text(line: &[u8], at: usize, out: &mut FlatNodes, depth: u32, decimals: bool) -> usize
    requires { (length line.now < 2 ^ 32) × (at < length line.now) × (get_or line.now at 0 ≡ 34) }
    ensures { result ≤ length line.now → ReadsOn line.now decimals at result depth out.old out.new }
{
    let Some(text) = unescape(line, at + 1, &mut out.texts) else {
        return REFUSED;
    };
    put(
        &mut out.nodes,
        FlatNode::Escaped(text.from, text.count),
        text.stop + 1,
    )
}

/// Reads a name and its colon: the place behind it, or `REFUSED`.
#[inline(always)]
pub(crate) fn key(line: &[u8], at: usize, out: &mut FlatNodes) -> usize
    requires { length line.now < 2 ^ 32 }
    ensures { result ≤ length line.now → ReadsKeyOn line.now at result out.old out.new }
{
    if byte_at(line, at) != b'"' {
        return REFUSED;
    }
    let stop = closing(line, at + 1);
    if stop >= line.len() {
        return escaped_key(line, at, out);
    }
    if byte_at(line, stop + 1) != b':' {
        return REFUSED;
    }
    put(
        &mut out.nodes,
        FlatNode::Key(at as u32 + 1, (stop - at - 1) as u32),
        stop + 2,
    )
}

/// The same of one that may have escapes.
#[cold]
#[inline(never)]
fn escaped_key(line: &[u8], at: usize, out: &mut FlatNodes) -> usize
    requires { (length line.now < 2 ^ 32) × (at < length line.now) × (get_or line.now at 0 ≡ 34) }
    ensures { result ≤ length line.now → ReadsKeyOn line.now at result out.old out.new }
{
    let Some(name) = unescape(line, at + 1, &mut out.texts) else {
        return REFUSED;
    };
    if byte_at(line, name.stop + 1) != b':' {
        return REFUSED;
    }
    put(
        &mut out.nodes,
        FlatNode::EscapedKey(name.from, name.count),
        name.stop + 2,
    )
}

/// Reads `true`, `false` or `null`: the place behind it, or `REFUSED`.
#[inline(always)]
pub(crate) fn literal(
    line: &[u8],
    at: usize,
    out: &mut FlatNodes,
    depth: u32,
    decimals: bool,
) -> usize
    requires { length line.now < 2 ^ 32 }
    ensures { result ≤ length line.now → ReadsOn line.now decimals at result depth out.old out.new }
{
    if at >= line.len() {
        return REFUSED;
    }
    let first = line[at];
    if first == b't' && goes_on(line, at, b'r', b'u', b'e') {
        return put(&mut out.nodes, FlatNode::Truth(true), at + 4);
    }
    if first == b'n' && goes_on(line, at, b'u', b'l', b'l') {
        return put(&mut out.nodes, FlatNode::Null, at + 4);
    }
    if first == b'f' && goes_on(line, at, b'a', b'l', b's') && byte_at(line, at + 4) == b'e' {
        return put(&mut out.nodes, FlatNode::Truth(false), at + 5);
    }
    REFUSED
}
