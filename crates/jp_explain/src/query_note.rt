//! What is to be told of the text of an accepted query that means something else than it seems to.

ghost use Rattle.std.specs.Prelude.{◌≡◌, true, IfOk, IfSome};
ghost use Rattle.jp_tree.specs.View.{text_of};
ghost use Rattle.jp_explain.specs.Picture.{is_shown};

use crate::line::PlainLine;
use crate::meant::{NAME_ENDS, front_of};
use crate::sizes::PATTERN_CHARACTERS;
use std::alloc::{AllocError, Global};

/// What is known of a query's text in front of a character.
#[derive(Drop)]
struct Front {
    /// The quote that is open.
    quote: Option<char>,
    /// Whether a `\` in quotes stands just in front.
    is_escaped: bool,
    /// Where the path began that goes on so far, at its `$` or `@`.
    path: Option<usize>,
    /// How many of its brackets are open.
    depth: usize,
}

impl Front {
    fn new() -> Front {
        Front {
            quote: None,
            is_escaped: false,
            path: None,
            depth: 0,
        }
    }

    /// Goes past a character in these quotes.
    fn pass_quoted(&mut self, quote: char, c: char) {
        if self.is_escaped {
            self.is_escaped = false;
        } else if c == '\\' {
            self.is_escaped = true;
        } else if c == quote {
            self.quote = None;
        }
    }

    /// Goes past the character at that byte.
    fn pass(&mut self, at: usize, c: char) {
        if let Some(quote) = self.quote {
            return self.pass_quoted(quote, c);
        }
        match c {
            '"' | '\'' => self.quote = Some(c),
            '$' | '@' => {
                self.path = Some(at);
                self.depth = 0;
            }
            '[' => self.depth = self.depth.saturating_add(1),
            ']' if self.depth > 0 => self.depth = self.depth.saturating_sub(1),
            ']' | '(' | ')' | '=' | '<' | '>' | '!' | '&' | '|' | ',' | '?' => self.path = None,
            _ => (),
        }
    }
}

/// Whether a name that ends there is a side of a comparison: an operator stands behind it, or one before the
/// path that it ends.
fn is_compared(before: &str, behind: &str) -> bool {
    let next = behind.trim_start();
    if next.starts_with(['=', '<', '>']) || next.starts_with("!=") {
        return true;
    }
    let is_on = next.starts_with(['.', '[']);
    let is_longer = behind.starts_with(|c: char| c == '_'
        || c.is_ascii_alphanumeric()
        || !c.is_ascii());
    !is_on && !is_longer && before.trim_end().ends_with(['=', '<', '>'])
}

/// The path from that byte on up to this dot, if `length` stands behind the dot and is compared.
fn path_of_length(text: &str, start: usize, dot: usize) -> Option<&str> {
    let (front, rest) = text.split_at_checked(dot)?;
    let (before, path) = front.split_at_checked(start)?;
    let behind = rest.strip_prefix(".length")?;
    match is_compared(before, behind) {
        true => Some(path),
        false => None,
    }
}

/// The first path of an accepted query behind which `.length` stands and is compared.
fn compared_length(text: &str) -> Option<&str> {
    let mut front = Front::new();
    for (at, c) in text.char_indices() {
        if c == '.' && front.quote.is_none() {
            if let Some(start) = front.path {
                if let Some(path) = path_of_length(text, start, at) {
                    return Some(path);
                }
            }
        }
        front.pass(at, c);
    }
    None
}

/// What is written for a sign of mathematics.
fn operator_of(c: char) -> Option<&'static str> {
    match c {
        '\u{2264}' => Some("<="),
        '\u{2265}' => Some(">="),
        '\u{2260}' => Some("!="),
        _ => None,
    }
}

/// A name with a sign of mathematics.
#[derive(Clone, Copy)]
struct SignedName<'q> {
    /// Its front, before the sign.
    start: &'q str,
    /// The rest, which begins with the sign.
    rest: &'q str,
    /// What is written for the sign.
    operator: &'static str,
}

/// The name that has the sign at that byte.
fn name_around<'q>(text: &'q str, at: usize, operator: &'static str) -> Option<SignedName<'q>> {
    let (before, behind) = text.split_at_checked(at)?;
    let start = match before.rsplit_once('.') {
        Some((_, start)) => start,
        None => before,
    };
    let rest = front_of(behind, &NAME_ENDS);
    Some(SignedName {
        start,
        rest,
        operator,
    })
}

/// The first name of an accepted query that has such a sign and stands in no quotes.
fn name_with_sign(text: &str) -> Option<SignedName<'_>> {
    let mut front = Front::new();
    for (at, c) in text.char_indices() {
        if front.quote.is_none() {
            if let Some(operator) = operator_of(c) {
                return name_around(text, at, operator);
            }
        }
        front.pass(at, c);
    }
    None
}

/// The line of a path behind which `.length` is compared.
fn length_line(alloc: Global, path: &str) -> Result<String, AllocError>
    ensures { IfOk result (λ s. is_shown (text_of s) ≡ true) }
{
    let mut line = PlainLine::new(alloc);
    line.push_front(path, PATTERN_CHARACTERS)?;
    line.push_text(".length is a member of that name: the function is length(")?;
    line.push_front(path, PATTERN_CHARACTERS)?;
    line.push_text(")")?;
    Ok(line.into_text())
}

/// The line of a name with a sign of mathematics.
fn sign_line(alloc: Global, name: SignedName<'_>) -> Result<String, AllocError>
    ensures { IfOk result (λ s. is_shown (text_of s) ≡ true) }
{
    let mut line = PlainLine::new(alloc);
    line.push_front(name.start, PATTERN_CHARACTERS)?;
    line.push_front(name.rest, PATTERN_CHARACTERS)?;
    line.push_text(" is a name as a whole: to compare write ")?;
    line.push_text(name.operator)?;
    Ok(line.into_text())
}

/// What is to be told of the text of an accepted query, or of a filter: lines with no line feed.
#[derive(Debug, PartialEq, Eq, Drop)]
pub struct QueryNotes {
    /// Of `length` behind a dot, which is compared as if it were the function.
    pub length: Option<String>,
    /// Of a name that has a sign of mathematics, as if that were an operator.
    pub sign: Option<String>,
}

/// The notes of the text of an accepted query, or of a filter.
///
/// # Errors
///
/// `AllocError` where a growth of memory was refused.
pub fn query_notes(alloc: Global, text: &str) -> Result<QueryNotes, AllocError>
    // No character that has to be escaped is among those that they give.
    ensures length { IfOk result (λ notes. IfSome notes.length (λ s. is_shown (text_of s) ≡ true)) }
    ensures sign { IfOk result (λ notes. IfSome notes.sign (λ s. is_shown (text_of s) ≡ true)) }
{
    let length = match compared_length(text) {
        Some(path) => Some(length_line(alloc, path)?),
        None => None,
    };
    let sign = match name_with_sign(text) {
        Some(name) => Some(sign_line(alloc, name)?),
        None => None,
    };
    Ok(QueryNotes { length, sign })
}
