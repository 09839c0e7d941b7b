//! A scan of a line from left to right, a byte at a time, to the place where it goes wrong (RFC 8259).
//!
//! It knows the grammar, and what the JSON crate refuses beside. No contract says so.

use crate::line_place::{Container, Digits, LineNumber, LinePlace, LineText, LineWord, Within};
use crate::line_reason::{LineExpected, LineReason, LineRule, ValueWord};
use crate::line_steps::is_number;
use std::alloc::{AllocError, Global};

/// The deepest nesting of arrays and objects.
pub(crate) const MAX_DEPTH: usize = 127;

/// The character U+FEFF at the front of a text, in UTF-8.
const BYTE_ORDER_MARK: [u8; 3] = [0xef, 0xbb, 0xbf];

/// Why a scan ends before the line does.
#[derive(Drop)]
pub(crate) enum LineHalt {
    /// A growth of memory was refused.
    Memory,
    /// The line is wrong behind so many bytes.
    At(usize, LineReason),
}

impl From<AllocError> for LineHalt {
    fn from(_refused: AllocError) -> LineHalt {
        LineHalt::Memory
    }
}

/// What one byte more has come to.
#[derive(Clone, Copy)]
pub(crate) enum Event {
    /// Nothing that is told.
    None,
    /// A value begins that is no array and no object.
    Begins,
    /// An array or an object begins.
    Opens,
    /// One ends.
    Closes,
    /// A name ends whose first quote stands there.
    Name(usize),
}

/// A scan of a line, and where it stands.
#[derive(Drop)]
pub(crate) struct LineScanner<'l> {
    pub(crate) line: &'l [u8],
    pub(crate) place: LinePlace,
    /// Whether a number may be beyond what a float can be.
    pub(crate) has_decimals: bool,
    open: Vec<Container>,
}

impl<'l> LineScanner<'l> {
    pub(crate) fn new(alloc: Global, line: &'l [u8]) -> LineScanner<'l> {
        LineScanner {
            line,
            place: LinePlace::Value,
            has_decimals: false,
            open: Vec::new(alloc),
        }
    }

    /// The same, where a number may be beyond what a float can be.
    pub(crate) fn of_decimals(alloc: Global, line: &'l [u8]) -> LineScanner<'l> {
        LineScanner {
            has_decimals: true,
            ..LineScanner::new(alloc, line)
        }
    }

    /// How many arrays and objects are open.
    pub(crate) fn depth(&self) -> usize {
        self.open.len()
    }

    /// The innermost of them.
    fn inside(&self) -> Option<Container> {
        self.open.as_slice().last().copied()
    }

    /// Goes on to the place.
    pub(crate) fn go(&mut self, place: LinePlace) -> Result<Event, LineHalt> {
        self.place = place;
        Ok(Event::None)
    }

    /// What might stand here.
    fn expected(&self) -> LineExpected {
        match self.place {
            LinePlace::Value => LineExpected::Value,
            LinePlace::FirstItem => LineExpected::FirstItem,
            LinePlace::FirstName => LineExpected::FirstName,
            LinePlace::Name => LineExpected::Name,
            LinePlace::Colon => LineExpected::Colon,
            LinePlace::Behind => match self.inside() {
                Some(Container::Array) => LineExpected::ItemEnd,
                Some(Container::Object) => LineExpected::MemberEnd,
                None => LineExpected::End,
            },
            LinePlace::Number(number) => match number.digits {
                Digits::Letter => LineExpected::Exponent,
                _ => LineExpected::Digit,
            },
            LinePlace::Word(word) => LineExpected::Rest(word.literal),
            LinePlace::Text(text) => match text.within {
                Within::Unit { .. } => LineExpected::HexDigit,
                _ => LineExpected::Escape,
            },
        }
    }

    /// What stands here may not.
    pub(crate) fn unexpected(&self, at: usize) -> LineHalt {
        if at == 0 && self.line.starts_with(&BYTE_ORDER_MARK) {
            return against(at, LineRule::ByteOrderMark);
        }
        LineHalt::At(at, LineReason::Expected(self.expected()))
    }

    /// Reads the byte that stands there.
    pub(crate) fn step(&mut self, at: usize, byte: u8) -> Result<Event, LineHalt> {
        match self.place {
            LinePlace::Text(text) => self.text(text, at, byte),
            LinePlace::Number(number) => self.number(number, at, byte),
            LinePlace::Word(word) => self.word(word, at, byte),
            _ => self.token(at, byte),
        }
    }

    /// The same between texts, numbers and words.
    pub(crate) fn token(&mut self, at: usize, byte: u8) -> Result<Event, LineHalt> {
        match (self.place, byte) {
            (_, b' ' | b'\t' | b'\n' | b'\r') => Ok(Event::None),
            (LinePlace::FirstItem, b']') | (LinePlace::FirstName, b'}') => self.closes(),
            (LinePlace::Value | LinePlace::FirstItem, _) => self.value(at, byte),
            (LinePlace::FirstName | LinePlace::Name, b'"') => {
                self.go(LinePlace::Text(LineText::new(true, at)))
            }
            (LinePlace::Colon, b':') => self.go(LinePlace::Value),
            (LinePlace::Behind, _) => self.behind(at, byte),
            _ => Err(self.unexpected(at)),
        }
    }

    fn value(&mut self, at: usize, byte: u8) -> Result<Event, LineHalt> {
        let digits = match byte {
            b'[' => return self.opens(at, Container::Array, LinePlace::FirstItem),
            b'{' => return self.opens(at, Container::Object, LinePlace::FirstName),
            b'"' => return self.begins(LinePlace::Text(LineText::new(false, at))),
            b't' => return self.begins(first_letter(ValueWord::True)),
            b'f' => return self.begins(first_letter(ValueWord::False)),
            b'n' => return self.begins(first_letter(ValueWord::Null)),
            b'-' => Digits::Minus,
            b'0' => Digits::Zero,
            b'1'..=b'9' => Digits::Whole,
            _ => return Err(self.unexpected(at)),
        };
        self.begins(LinePlace::Number(LineNumber { digits, start: at }))
    }

    fn begins(&mut self, place: LinePlace) -> Result<Event, LineHalt> {
        self.place = place;
        Ok(Event::Begins)
    }

    fn opens(
        &mut self,
        at: usize,
        container: Container,
        place: LinePlace,
    ) -> Result<Event, LineHalt> {
        if self.depth() >= MAX_DEPTH {
            return Err(against(at, LineRule::TooDeep));
        }
        push_container(&mut self.open, container)?;
        self.place = place;
        Ok(Event::Opens)
    }

    fn closes(&mut self) -> Result<Event, LineHalt> {
        let _closed = self.open.pop();
        self.place = LinePlace::Behind;
        Ok(Event::Closes)
    }

    /// Behind a value.
    fn behind(&mut self, at: usize, byte: u8) -> Result<Event, LineHalt> {
        match (self.inside(), byte) {
            (Some(Container::Array), b',') => self.go(LinePlace::Value),
            (Some(Container::Object), b',') => self.go(LinePlace::Name),
            (Some(Container::Array), b']') | (Some(Container::Object), b'}') => self.closes(),
            _ => Err(self.unexpected(at)),
        }
    }

    fn word(&mut self, word: LineWord, at: usize, byte: u8) -> Result<Event, LineHalt> {
        let letters = word.literal.text().as_bytes();
        if letters.get(word.read).copied() != Some(byte) {
            return Err(self.unexpected(at));
        }
        let read = word.read.saturating_add(1);
        if read == letters.len() {
            return self.go(LinePlace::Behind);
        }
        self.go(LinePlace::Word(LineWord { read, ..word }))
    }

    /// The line ends behind so many bytes.
    fn end(&mut self, at: usize) -> Result<(), LineHalt> {
        match self.place {
            LinePlace::Text(_) => return Err(against(at, LineRule::TextEnd)),
            LinePlace::Number(number) if is_number(number.digits) => self.number_end(number, at)?,
            _ => {}
        }
        match self.expected() {
            LineExpected::End => Ok(()),
            expected => Err(LineHalt::At(at, LineReason::Ended(expected))),
        }
    }

    /// Reads the line to the place where it goes wrong, if it does.
    fn read(&mut self, whole: usize) -> Result<(), LineHalt> {
        let line = self.line;
        for (at, byte) in line.iter().enumerate() {
            self.step(at, *byte)?;
        }
        if line.len() < whole {
            return Err(against(line.len(), LineRule::Utf8));
        }
        self.end(whole)
    }
}

/// What begins there breaks the rule.
pub(crate) fn against(start: usize, rule: LineRule) -> LineHalt {
    LineHalt::At(start, LineReason::Rule(rule))
}

/// The place behind the first letter of the word.
fn first_letter(literal: ValueWord) -> LinePlace {
    LinePlace::Word(LineWord { literal, read: 1 })
}

fn push_container(open: &mut Vec<Container>, container: Container) -> Result<(), AllocError> {
    open.push(container)?;
    Ok(())
}

/// What of the line is UTF-8, from its front on.
fn utf8_front(line: &[u8]) -> &[u8] {
    match std::str::from_utf8(line) {
        Ok(_) => line,
        Err(error) => line.get(..error.valid_up_to()).unwrap_or(line),
    }
}

/// Where a line that is no JSON text goes wrong, and what is to be said of it; nothing of a right one.
///
/// `AllocError` if a growth was refused.
pub fn first_fault(alloc: Global, line: &[u8]) -> Result<Option<(usize, LineReason)>, AllocError> {
    fault_of(LineScanner::new(alloc, utf8_front(line)), line.len())
}

/// The same, where a number may be beyond what a float can be.
///
/// `AllocError` if a growth was refused.
pub fn first_fault_of_decimals(
    alloc: Global,
    line: &[u8],
) -> Result<Option<(usize, LineReason)>, AllocError> {
    fault_of(
        LineScanner::of_decimals(alloc, utf8_front(line)),
        line.len(),
    )
}

/// What a scan finds of a line of so many bytes.
fn fault_of(
    mut scanner: LineScanner<'_>,
    whole: usize,
) -> Result<Option<(usize, LineReason)>, AllocError> {
    match scanner.read(whole) {
        Ok(()) => Ok(None),
        Err(LineHalt::Memory) => Err(AllocError),
        Err(LineHalt::At(mark, reason)) => Ok(Some((mark, reason))),
    }
}
