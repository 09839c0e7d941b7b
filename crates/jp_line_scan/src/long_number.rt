//! The first number of a line that is over the limits: where it is in the document, and where in the line.

ghost use Rattle.std.specs.Prelude.{◌≡◌, ◌≤◌, ◌<◌, true, length, take, IfSome};
ghost use Rattle.std.specs.List.{list_all};
ghost use Rattle.jp_number.specs.Number.{written, IsShort};
ghost use Rattle.jp_line_scan.specs.NumberBytes.{is_of_number};

use crate::line_scanner::{Event, LineHalt, LineScanner};
use crate::not_whole::number_length;
use jp_node::{Link, append_link};
use jp_number::NumberText;
use serde_json::Value;
use std::alloc::{AllocError, Global};

/// How many bytes the number takes with which these begin, if it is over the limits.
pub fn long_length(bytes: &[u8]) -> Option<usize>
    ensures some { IfSome result (λ n. 0 < n) }
    ensures within { IfSome result (λ n. n ≤ length bytes.now) }
    ensures number { IfSome result (λ n. list_all is_of_number (take n bytes.now) ≡ true) }
    ensures long { IfSome result (λ n. ¬ IsShort (written (take n bytes.now))) }
{
    let length = number_length(bytes);
    if length == 0 {
        return None;
    }
    let Ok(text) = std::str::from_utf8(&bytes[..length]) else {
        return None;
    };
    match NumberText::new(text) {
        Some(_) => None,
        None => Some(length),
    }
}

/// Which child of an open array or object was begun last.
#[derive(Clone, Copy)]
enum LastChild {
    /// The last of so many items; none yet of 0.
    Item(u32),
    /// The member whose name stands between the quotes at these places.
    Member(usize, usize),
}

/// Where a scan of a line is in its document: a step for each array and object that is open.
#[derive(Drop)]
struct Trail {
    steps: Vec<LastChild>,
}

impl Trail {
    /// The innermost step is this one.
    fn turn(&mut self, step: LastChild) {
        let count = self.steps.len();
        if count > 0 {
            self.steps[count - 1] = step;
        }
    }

    /// A value begins.
    fn begins(&mut self) {
        if let Some(LastChild::Item(count)) = self.steps.as_slice().last().copied() {
            self.turn(LastChild::Item(count.saturating_add(1)));
        }
    }

    /// An array or an object begins by that bracket.
    fn opens(&mut self, bracket: u8) -> Result<(), AllocError> {
        self.begins();
        let step = match bracket {
            b'[' => LastChild::Item(0),
            _ => LastChild::Member(0, 0),
        };
        self.steps.push(step)?;
        Ok(())
    }

    /// Takes what the scan has come to at the byte that stands there.
    fn see(&mut self, event: Event, at: usize, byte: u8) -> Result<(), AllocError> {
        match event {
            Event::None => {}
            Event::Name(start) => self.turn(LastChild::Member(start, at)),
            Event::Begins => self.begins(),
            Event::Opens => self.opens(byte)?,
            Event::Closes => {
                let _closed = self.steps.pop();
            }
        }
        Ok(())
    }

    /// The text of the path to the value that was begun last in the line.
    fn path(&self, alloc: Global, line: &[u8]) -> Result<String, AllocError> {
        let mut path = Vec::new(alloc);
        path.push(b'$')?;
        for step in &self.steps {
            append_step(alloc, &mut path, line, *step)?;
        }
        String::from_utf8_lossy(alloc, path.as_slice())
    }
}

/// Appends what a step adds to a path.
fn append_step(
    alloc: Global,
    path: &mut Vec<u8>,
    line: &[u8],
    step: LastChild,
) -> Result<(), AllocError> {
    match step {
        LastChild::Item(count) => append_link(Link::Index(count.saturating_sub(1)), path),
        LastChild::Member(start, end) => {
            let name = name_of(alloc, line.get(start..=end).unwrap_or(&[]))?;
            append_link(Link::Name(name.as_str()), path)
        }
    }
}

/// The name that is written so, in its quotes.
fn name_of(alloc: Global, quoted: &[u8]) -> Result<String, AllocError> {
    match Value::from_slice(alloc, quoted) {
        Ok(value) => Ok(text_in(alloc, value)),
        Err(error) if error.is_memory() => Err(AllocError),
        Err(_) => Ok(String::new(alloc)),
    }
}

/// The text that the value is.
fn text_in(alloc: Global, value: Value) -> String {
    match value {
        Value::String(text) => text,
        _other => String::new(alloc),
    }
}

/// Whether a number over the limits begins there.
fn is_long_at(line: &[u8], at: usize) -> bool {
    match line.get(at..) {
        Some(bytes) => long_length(bytes).is_some(),
        None => false,
    }
}

/// The path of the first number of the line that is over the limits, and where it begins.
pub fn first_long_number(
    alloc: Global,
    line: &[u8],
) -> Result<Option<(String, usize)>, AllocError> {
    let mut scanner = LineScanner::of_decimals(alloc, line);
    let mut trail = Trail {
        steps: Vec::new(alloc),
    };
    for (at, byte) in line.iter().enumerate() {
        let event = match scanner.step(at, *byte) {
            Ok(event) => event,
            Err(LineHalt::Memory) => return Err(AllocError),
            Err(LineHalt::At(_, _)) => return Ok(None),
        };
        trail.see(event, at, *byte)?;
        if let Event::Begins = event {
            if is_long_at(line, at) {
                return Ok(Some((trail.path(alloc, line)?, at)));
            }
        }
    }
    Ok(None)
}
