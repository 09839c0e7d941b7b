//! The reading of a line in one pass.

ghost use Rattle.std.specs.Prelude.{◌≡◌, ◌≤◌, ◌<◌, ◌+◌, ◌^◌, IsTrue, false, length, get_or, true};
ghost use Rattle.jp_flat_nodes.specs.Nodes.{IsRead, source};
ghost use Rattle.jp_flat_nodes.specs.inner.Reads.{ReadsOn};

use crate::bytes::{blanks_end, byte_at};
use crate::leaves::{key, literal, text};
use crate::limits::{MAX_DEPTH, MAX_NODES};
use crate::node::{FlatNode, FlatNodes, REFUSED, close_array, close_object, push};
use crate::numbers::number;

/// Reads a value, which begins here: the place behind it, or `REFUSED`. Then the nodes may be any. So many
/// brackets may be open inside of it at most.
#[cycle(reading)]
#[inline(always)]
fn value(line: &[u8], at: usize, out: &mut FlatNodes, depth: u32, decimals: bool) -> usize
    requires { length line.now < 2 ^ 32 }
    ensures { result ≤ length line.now
        → ReadsOn line.now decimals at result depth out.old out.new }
{
    match byte_at(line, at) {
        b'"' => text(line, at, out, depth, decimals),
        b'{' if depth > 0 => object(line, at, out, depth - 1, decimals),
        b'[' if depth > 0 => array(line, at, out, depth - 1, decimals),
        b'{' | b'[' => REFUSED,
        b't' | b'f' | b'n' => literal(line, at, out, depth, decimals),
        _ => number(line, at, out, depth, decimals),
    }
}

/// Reads an array, likewise.
#[cycle(reading)]
#[inline(never)]
fn array(line: &[u8], at: usize, out: &mut FlatNodes, depth: u32, decimals: bool) -> usize
    requires { (length line.now < 2 ^ 32) × (get_or line.now at 0 ≡ 91) }
    ensures { result ≤ length line.now
        → ReadsOn line.now decimals at result (depth + 1) out.old out.new }
{
    let place = out.nodes.len();
    if at >= line.len() || !push(&mut out.nodes, FlatNode::Array(0)) {
        return REFUSED;
    }
    let mut cursor = blanks_end(line, at + 1);
    if byte_at(line, cursor) == b']' {
        return close_array(&mut out.nodes, place, cursor + 1);
    }
    loop {
        let end = value(line, cursor, out, depth, decimals);
        let stop = blanks_end(line, end);
        match byte_at(line, stop) {
            b',' if stop == end => cursor = blanks_end(line, stop + 1),
            b']' => return close_array(&mut out.nodes, place, stop + 1),
            _ => return REFUSED,
        }
    }
}

/// Reads an object, likewise.
#[cycle(reading)]
#[inline(never)]
fn object(line: &[u8], at: usize, out: &mut FlatNodes, depth: u32, decimals: bool) -> usize
    requires { (length line.now < 2 ^ 32) × (get_or line.now at 0 ≡ 123) }
    ensures { result ≤ length line.now
        → ReadsOn line.now decimals at result (depth + 1) out.old out.new }
{
    let place = out.nodes.len();
    if at >= line.len() || !push(&mut out.nodes, FlatNode::Object(0)) {
        return REFUSED;
    }
    let mut cursor = blanks_end(line, at + 1);
    if byte_at(line, cursor) == b'}' {
        return close_object(&mut out.nodes, place, cursor + 1);
    }
    loop {
        let inside = key(line, cursor, out);
        let end = value(line, blanks_end(line, inside), out, depth, decimals);
        let stop = blanks_end(line, end);
        match byte_at(line, stop) {
            b',' if stop == end => cursor = blanks_end(line, stop + 1),
            b'}' => return close_object(&mut out.nodes, place, stop + 1),
            _ => return REFUSED,
        }
    }
}

/// Reads a line, with numbers of every kind or with whole ones alone.
fn read_with(line: &[u8], out: &mut FlatNodes, decimals: bool) -> bool
    requires { length line.now < 2 ^ 32 }
    ensures { IsTrue result → IsRead decimals (source line.now out.new.texts.items) out.new.nodes.items }
{
    out.nodes.clear();
    out.texts.clear();
    // A node for each eight bytes is about what a line has: so few growths are the rule.
    if out.nodes.reserve(line.len() / 8).is_err() {
        return false;
    }
    let end = value(line, blanks_end(line, 0), out, MAX_DEPTH, decimals);
    end == line.len() && out.nodes.len() <= MAX_NODES
}

/// Whether the line was read, into the nodes that it has: one for each token of the line. `false` says
/// nothing: of a line that holds no JSON text, that nests deeper than 127, in which some number has a
/// fraction, an exponent or more than 18 digits, or in which some blank stands before a colon or a comma, is
/// a tab or a carriage return, or stands behind the value; where there is no memory for a node or a text, or
/// there would be more nodes than `MAX_NODES`.
pub fn read_line(line: &[u8], out: &mut FlatNodes) -> bool
    requires { length line.now < 2 ^ 32 }
    ensures { IsTrue result → IsRead false (source line.now out.new.texts.items) out.new.nodes.items }
{
    read_with(line, out, false)
}

/// The same where numbers may have a fraction and an exponent: `false` where one has more than 18 digits
/// before its point, more than 300 bytes, or an exponent of more than 10.
pub fn read_decimal_line(line: &[u8], out: &mut FlatNodes) -> bool
    requires { length line.now < 2 ^ 32 }
    ensures { IsTrue result → IsRead true (source line.now out.new.texts.items) out.new.nodes.items }
{
    read_with(line, out, true)
}
