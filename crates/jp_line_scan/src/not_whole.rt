//! The first number of a line that is not whole: where it is in the document, and where in the line.

ghost use Rattle.std.specs.Prelude.{◌≡◌, ◌≤◌, true, length, take};
ghost use Rattle.std.specs.List.{list_all};
ghost use Rattle.serde_json.specs.View.{view};
ghost use Rattle.serde_json.specs.Written.{has_float};
ghost use Rattle.jp_line_scan.specs.NumberBytes.{is_of_number};

use crate::line_scanner::{Event, LineHalt, LineScanner, MAX_DEPTH};
use crate::written_name::is_written_for;
use jp_doc::{DocFault, fault_within};
use jp_node::{Link, PathStack};
use serde_json::{Map, Value};
use std::alloc::{AllocError, Global};

/// Whether some number of the value, however deep, is not whole.
pub fn has_number_not_whole(value: &Value) -> bool
    ensures { result ≡ has_float (view value.now) }
{
    match fault_within(value, usize::MAX) {
        Some(DocFault::NotWhole) => true,
        _ => false,
    }
}

/// Goes down to the first number that is not whole, where names rise.
pub fn lead<'v>(root: &'v Value, path: &mut PathStack<'v>) -> Result<(), AllocError> {
    let mut value = root;
    for _level in 0..MAX_DEPTH {
        let Some((link, child)) = first_child(value) else {
            return Ok(());
        };
        path.push(link)?;
        value = child;
    }
    Ok(())
}

/// The first child with such a number.
fn first_child(value: &Value) -> Option<(Link<'_>, &Value)> {
    match value {
        Value::Array(items) => first_item(items),
        Value::Object(members) => first_member(members),
        _ => None,
    }
}

fn first_item(items: &Vec<Value>) -> Option<(Link<'_>, &Value)> {
    let mut index = 0u32;
    for item in items {
        if has_number_not_whole(item) {
            return Some((Link::Index(index), item));
        }
        index = index.saturating_add(1);
    }
    None
}

fn first_member(members: &Map<String, Value>) -> Option<(Link<'_>, &Value)> {
    for (name, member) in members.iter() {
        if has_number_not_whole(member) {
            return Some((Link::Name(name.as_str()), member));
        }
    }
    None
}

/// Follows links through a line, to the value that they lead to.
#[derive(Drop)]
struct Follower<'f, 'v> {
    line: &'f [u8],
    links: &'f [Link<'v>],
    /// How many of the links lead to the value that was begun last.
    followed: usize,
    /// The index of the next item of the array that these links lead to, if it is one.
    index: u32,
    /// Where the value of all links begins.
    found: Option<usize>,
}

impl<'v> Follower<'_, 'v> {
    /// The link to a value at that depth.
    fn link(&self, depth: usize) -> Option<Link<'v>> {
        let above = depth.checked_sub(1)?;
        self.links.get(above).copied()
    }

    /// A value at that depth begins, which its link leads to, or not.
    fn child(&mut self, depth: usize, is_linked: bool) {
        let above = depth.saturating_sub(1);
        self.followed = self.followed.min(above);
        if is_linked && self.followed == above {
            self.followed = depth;
        }
    }

    /// The name of a value at that depth ends.
    fn name(&mut self, depth: usize, start: usize, at: usize) {
        let written = self.line.get(start.saturating_add(1)..at).unwrap_or(&[]);
        let is_linked = match self.link(depth) {
            Some(Link::Name(name)) => is_written_for(written, name),
            _ => false,
        };
        self.child(depth, is_linked);
    }

    /// A value at that depth begins.
    ///
    /// It may be a member where the link is to an item: of an object that a later member covers. What is
    /// found there is found anew in that member, which stands behind it.
    fn begins(&mut self, depth: usize, at: usize) {
        if let Some(Link::Index(index)) = self.link(depth) {
            self.child(depth, index == self.index);
            if self.followed.saturating_add(1) >= depth {
                self.index = self.index.saturating_add(1);
            }
        }
        if self.followed == depth && depth == self.links.len() {
            self.found = Some(at);
        }
    }

    /// Takes what the scan has come to at that place, behind which so many arrays and objects are open.
    fn see(&mut self, event: Event, depth: usize, at: usize) {
        match event {
            Event::None => {}
            Event::Name(start) => self.name(depth, start, at),
            Event::Begins => self.begins(depth, at),
            Event::Opens => {
                let outer = depth.saturating_sub(1);
                self.begins(outer, at);
                if self.followed == outer {
                    self.index = 0;
                }
            }
            Event::Closes => {
                // Behind the item that was followed no other one is: none has that index.
                if self.followed >= depth {
                    self.index = u32::MAX;
                }
            }
        }
    }
}

/// Where the value begins to which the links lead, of members of one name by the last, in a line that is
/// read.
pub fn place_of(
    alloc: Global,
    line: &[u8],
    links: &[Link<'_>],
) -> Result<Option<usize>, AllocError> {
    let mut scanner = LineScanner::new(alloc, line);
    let mut follower = Follower {
        line,
        links,
        followed: 0,
        index: 0,
        found: None,
    };
    for (at, byte) in line.iter().enumerate() {
        match scanner.step(at, *byte) {
            Ok(event) => follower.see(event, scanner.depth(), at),
            Err(LineHalt::Memory) => return Err(AllocError),
            Err(LineHalt::At(_, _)) => return Ok(None),
        }
    }
    Ok(follower.found)
}

/// Whether numbers have the byte (RFC 8259, 6).
fn is_of_number(byte: u8) -> bool
    ensures { result ≡ is_of_number byte }
{
    matches!(byte, b'0'..=b'9' | b'+' | b'-' | b'.' | b'E' | b'e')
}

/// How many bytes of a number these begin with.
pub fn number_length(bytes: &[u8]) -> usize
    ensures within { result ≤ length bytes.now }
    ensures number { list_all is_of_number (take result bytes.now) ≡ true }
{
    let mut length = 0;
    for byte in bytes {
        if !is_of_number(*byte) {
            break;
        }
        length += 1;
    }
    length
}
