//! Patterns of other engines in the words of RFC 9485.

use crate::slashes::is_flag;
use std::alloc::{AllocError, Global};

/// What an escape of other engines is outside of a class (RFC 9485, 3).
fn escape_alone(c: char) -> Option<&'static str> {
    match c {
        'd' => Some("[0-9]"),
        'D' => Some("[^0-9]"),
        'w' => Some("[0-9A-Za-z_]"),
        'W' => Some("[^0-9A-Za-z_]"),
        's' => Some("[ \\t\\n\\r]"),
        'S' => Some("[^ \\t\\n\\r]"),
        _ => None,
    }
}

/// What it is in a class.
fn escape_in_class(c: char) -> Option<&'static str> {
    match c {
        'd' => Some("0-9"),
        'w' => Some("0-9A-Za-z_"),
        's' => Some(" \\t\\n\\r"),
        _ => None,
    }
}

/// Whether the character may stand behind a `\` (RFC 9485, 3: SingleCharEsc and charClassEsc).
fn is_escape(c: char) -> bool {
    matches!(
        c,
        '(' | ')'
            | '*'
            | '+'
            | '-'
            | '.'
            | '?'
            | '['
            | '\\'
            | ']'
            | '^'
            | 'n'
            | 'p'
            | 'P'
            | 'r'
            | 't'
            | '{'
            | '|'
            | '}'
    )
}

/// A pattern that is being written.
#[derive(Drop)]
struct Rewriting {
    text: String,
    /// Whether a class is open.
    is_class: bool,
    /// Whether a quantity has just ended.
    is_counted: bool,
}

impl Rewriting {
    /// A `\` and that character, and whether it has plain words.
    fn push_escape(&mut self, c: char) -> Result<bool, AllocError> {
        let plain = match self.is_class {
            true => escape_in_class(c),
            false => escape_alone(c),
        };
        if let Some(words) = plain {
            self.text.push_str(words)?;
            return Ok(true);
        }
        if is_escape(c) {
            self.text.push('\\')?;
        } else if !c.is_ascii_punctuation() && c != ' ' {
            return Ok(false);
        }
        self.text.push(c)?;
        Ok(true)
    }

    /// What stands in a class, of which more follows; what is left, if it has plain words.
    fn step_in_class<'q>(&mut self, rest: &'q [char]) -> Result<Option<&'q [char]>, AllocError> {
        match rest {
            ['\\', c, after @ ..] => Ok(self.push_escape(*c)?.then_some(after)),
            // A class of POSIX, as `[:alpha:]`.
            ['[', ':', ..] => Ok(None),
            ['[', after @ ..] => {
                self.text.push_str("\\[")?;
                Ok(Some(after))
            }
            [c, after @ ..] => {
                self.is_class = *c != ']';
                self.text.push(*c)?;
                Ok(Some(after))
            }
            [] => Ok(Some(rest)),
        }
    }

    /// The same outside of a class.
    fn step_outside<'q>(&mut self, rest: &'q [char]) -> Result<Option<&'q [char]>, AllocError> {
        let was_counted = self.is_counted;
        self.is_counted = matches!(rest, ['*' | '+' | '?' | '}', ..]);
        match rest {
            ['\\', c, after @ ..] => Ok(self.push_escape(*c)?.then_some(after)),
            ['(', '?', ':', after @ ..] => {
                self.text.push('(')?;
                Ok(Some(after))
            }
            ['?', after @ ..] if was_counted => Ok(Some(after)),
            ['{', ',', after @ ..] => {
                self.text.push_str("{0,")?;
                Ok(Some(after))
            }
            [']', after @ ..] => {
                self.text.push_str("\\]")?;
                Ok(Some(after))
            }
            [c, after @ ..] => {
                self.is_class = *c == '[';
                self.text.push(*c)?;
                Ok(Some(after))
            }
            [] => Ok(Some(rest)),
        }
    }
}

/// The characters without anchors at both ends.
fn without_anchors(characters: &[char]) -> &[char] {
    let behind = match characters {
        ['^', behind @ ..] => behind,
        _ => characters,
    };
    match behind {
        [inside @ .., '$'] => inside,
        _ => behind,
    }
}

/// What stands between two slashes, and the letters behind them; else the text itself, and none.
fn without_slashes(text: &str) -> (&str, &str) {
    let Some(rest) = text.strip_prefix('/') else {
        return (text, "");
    };
    let Some((inside, flags)) = rest.split_once('/') else {
        return (text, "");
    };
    let is_slashed = !inside.is_empty() && flags.chars().all(|c| is_flag(c));
    match is_slashed {
        true => (inside, flags),
        false => (text, ""),
    }
}

/// The text with each letter of ASCII in both cases; none where it has escapes or classes.
fn in_either_case(alloc: Global, characters: &[char]) -> Result<Option<String>, AllocError> {
    let mut text = String::new(alloc);
    for c in characters {
        if matches!(*c, '\\' | '[') {
            return Ok(None);
        }
        if c.is_ascii_alphabetic() {
            text.push('[')?;
            text.push(c.to_ascii_uppercase())?;
            text.push(c.to_ascii_lowercase())?;
            text.push(']')?;
        } else {
            text.push(*c)?;
        }
    }
    Ok(Some(text))
}

/// What a pattern of other engines is in plain words, without its slashes and anchors; none where something
/// in it has no such words. Whether it is an I-Regexp is not said.
pub(crate) fn plain_pattern(alloc: Global, text: &str) -> Result<Option<String>, AllocError> {
    let (between, flags) = without_slashes(text);
    let characters: Vec<char> = between.chars().collect(alloc)?;
    let inside = without_anchors(&characters);
    if flags.contains('i') {
        return in_either_case(alloc, inside);
    }
    if let ['(', '?', 'i', ')', letters @ ..] = inside {
        return in_either_case(alloc, without_anchors(letters));
    }
    let mut written = Rewriting {
        text: String::new(alloc),
        is_class: false,
        is_counted: false,
    };
    let mut rest = inside;
    for _turn in 0..inside.len() {
        let step = match written.is_class {
            true => written.step_in_class(rest)?,
            false => written.step_outside(rest)?,
        };
        match step {
            Some(after) => rest = after,
            None => return Ok(None),
        }
    }
    Ok(Some(written.text))
}
