//! A scan of a query text from left to right, a character at a time, to the place where it goes wrong.
//!
//! It knows the grammar, the functions and their types. No contract says so: what it finds is tried by
//! `explain`, whose contract holds whatever it finds.

use crate::completion::completion;
use crate::expected::expected;
use crate::place::{Open, ScanPlace};
use crate::reason::{Reason, Rule};
use jp_number::Numbers;
use std::alloc::{AllocError, Global};

/// The deepest nesting of brackets and parentheses.
const MAX_DEPTH: usize = 64;

/// Where a query text goes wrong, and how a query may go on there.
#[derive(Drop)]
pub struct Scanned {
    /// How many characters stand before the mark.
    pub mark: usize,
    /// What might have stood there, or which rule is broken there.
    pub reason: Reason,
    /// What makes a query of the characters before the mark.
    pub completion: String,
}

/// Why a scan ends before the text does.
#[derive(Clone, Copy)]
pub(crate) enum Halt {
    /// A growth of memory was refused.
    Memory,
    /// The text is wrong behind so many characters.
    At(usize, Reason),
}

impl From<AllocError> for Halt {
    fn from(_refused: AllocError) -> Halt {
        Halt::Memory
    }
}

/// A scan, and where it stands.
#[derive(Drop)]
pub(crate) struct Scanner {
    /// Which numbers the literals may be.
    pub(crate) numbers: Numbers,
    pub(crate) place: ScanPlace,
    pub(crate) open: Vec<Open>,
    /// The letters of the word that is being read.
    pub(crate) word: String,
    /// Those of them that begin a word which may stand there.
    pub(crate) front: String,
}

impl Scanner {
    fn new(alloc: Global, numbers: Numbers) -> Scanner {
        Scanner {
            numbers,
            place: ScanPlace::Start,
            open: Vec::new(alloc),
            word: String::new(alloc),
            front: String::new(alloc),
        }
    }

    /// The innermost of the open brackets.
    pub(crate) fn inside(&self) -> Option<Open> {
        self.open.as_slice().last().copied()
    }

    /// Whether one more bracket or parenthesis may be opened.
    pub(crate) fn may_open(&self) -> bool {
        self.open.len() < MAX_DEPTH
    }

    /// Goes on to the place.
    pub(crate) fn go(&mut self, place: ScanPlace) -> Result<(), Halt> {
        self.place = place;
        Ok(())
    }

    /// What stands here may not.
    pub(crate) fn unexpected(&self, at: usize) -> Halt {
        Halt::At(at, Reason::Expected(expected(self.place, self.inside())))
    }

    /// What began there, at that place, breaks the rule.
    pub(crate) fn against(&mut self, start: usize, place: ScanPlace, rule: Rule) -> Halt {
        self.place = place;
        Halt::At(start, Reason::Rule(rule))
    }

    /// Opens a bracket or a parenthesis, and goes on to the place.
    pub(crate) fn opens(&mut self, at: usize, open: Open, place: ScanPlace) -> Result<(), Halt> {
        if !self.may_open() {
            return Err(Halt::At(at, Reason::Rule(Rule::TooDeep)));
        }
        push_open(&mut self.open, open)?;
        self.go(place)
    }

    /// Reads one more character, behind `at` others.
    fn step(&mut self, at: usize, c: char) -> Result<(), Halt> {
        match self.place {
            ScanPlace::Start => self.start(at, c),
            ScanPlace::Segments(begun) | ScanPlace::Blanks(begun) => self.segments(begun, at, c),
            ScanPlace::Dot(begun) => self.dot(begun, at, c),
            ScanPlace::Dots(begun) => self.dots(begun, at, c),
            ScanPlace::Name(begun) => self.name(begun, at, c),
            ScanPlace::Selector => self.selector(at, c),
            ScanPlace::Past => self.past(at, c),
            ScanPlace::Step => self.slice_step(at, c),
            ScanPlace::BegunNumber(number) => self.number(number, at, c),
            ScanPlace::Quoted(quoted) => self.quoted(quoted, at, c),
            ScanPlace::Word(word) => self.word(word, at, c),
            ScanPlace::Operand(side) => self.operand(side, at, c),
            ScanPlace::Argument(side) => self.argument(side, at, c),
            ScanPlace::Doubled => self.doubled(at, c),
            ScanPlace::OrEqual => self.or_equal(at, c),
            ScanPlace::And => self.connective('&', at, c),
            ScanPlace::Or => self.connective('|', at, c),
            _ => self.behind(at, c),
        }
    }

    /// The same behind a part that has ended.
    pub(crate) fn behind(&mut self, at: usize, c: char) -> Result<(), Halt> {
        match self.place {
            ScanPlace::SelectorEnd => self.selector_end(at, c),
            ScanPlace::IndexEnd => self.index_end(at, c),
            ScanPlace::PastEnd => self.past_end(at, c),
            ScanPlace::ArgumentEnd => self.argument_end(at, c),
            ScanPlace::Operator(call) => self.operator(call, at, c),
            ScanPlace::Joint(call) => self.joint(call, at, c),
            _ => Err(self.unexpected(at)),
        }
    }

    /// The text ends behind so many characters.
    fn end(&mut self, at: usize) -> Halt {
        match self.place {
            ScanPlace::Word(word) => self.word_halt(word, at),
            _ => self.unexpected(at),
        }
    }

    /// Reads the text to the place where it goes wrong, which is its end at the latest.
    fn read(&mut self, text: &str) -> Halt {
        for (at, c) in text.chars().enumerate() {
            if let Err(halt) = self.step(at, c) {
                return halt;
            }
        }
        self.end(text.chars().count())
    }
}

fn push_open(opened: &mut Vec<Open>, open: Open) -> Result<(), AllocError> {
    opened.push(open)?;
    Ok(())
}

/// Where the query text, which is no query whose literals are these numbers, goes wrong, and what makes its
/// front such a query. No clause says that it is right: who uses it judges the completed front.
///
/// # Errors
///
/// `AllocError` where a growth of memory was refused.
pub fn scan(alloc: Global, text: &str, numbers: Numbers) -> Result<Scanned, AllocError> {
    let mut scanner = Scanner::new(alloc, numbers);
    match scanner.read(text) {
        Halt::Memory => Err(AllocError),
        Halt::At(mark, reason) => Ok(Scanned {
            mark,
            reason,
            completion: completion(alloc, &scanner)?,
        }),
    }
}
