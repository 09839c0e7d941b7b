//! What is to be told of the literal patterns of an accepted query.

ghost use Rattle.std.specs.Prelude.{◌≡◌, ◌∷◌, ◌++◌, [], false, true, List};
ghost use Rattle.std.specs.Prelude.{IfOk, IfSome, IfNone, IsTrue, OnOk};
ghost use Rattle.std.specs.Str.{chars};
ghost use Rattle.jp_tree.specs.Tree.{Text};
ghost use Rattle.jp_tree.specs.View.{text_of};
ghost use Rattle.jp_check.specs.LiteralPatterns.{literal_patterns};
ghost use Rattle.jp_check.specs.Plan.{planned_query};
ghost use Rattle.jp_explain.specs.Picture.{is_shown};
ghost use Rattle.jp_explain.specs.PatternNotes.{AreNotes, HasAnchor, IsPattern, IsRightTrap, IsTrap};
ghost use Rattle.jp_explain.specs.PatternNotes.{first_or, last_or};

use crate::line::PlainLine;
use crate::plain_pattern::plain_pattern;
use crate::sizes::PATTERN_CHARACTERS;
use crate::slashes::has_slashes;
use jp_check::Plan;
use jp_compiled::KnownPattern;
use jp_regexp::Pattern;
use jp_tokens::first_character;
use std::alloc::{AllocError, Global};

/// Why a literal pattern may not match what was meant.
#[derive(Debug, PartialEq, Eq, Drop)]
pub enum Trap {
    /// It is no I-Regexp within the limits (RFC 9485), so it matches nothing. With one to be written in its
    /// place, where that is known.
    NoPattern(Option<String>),
    /// It stands between slashes, which stand for themselves, as the letters behind them do. With one to be
    /// written in its place, where that is known.
    Slashed(Option<String>),
    /// It begins with `^` or ends with `$`, which stand for themselves (RFC 9485, 3).
    Anchors,
}

/// What is to be told of a literal pattern of an accepted query.
#[derive(Debug, PartialEq, Eq, Drop)]
pub struct PatternNote {
    /// The text that its literal stands for.
    pub pattern: String,
    /// Why it may not match what was meant.
    pub trap: Trap,
}

/// The first character of the text, or U+0000 where there is none.
fn first_of(text: &str) -> char
    ensures { result ≡ first_or 0 (chars text.now) }
{
    match first_character(text) {
        Some((c, _rest)) => c,
        None => '\0',
    }
}

/// The last character of the text, or U+0000 where there is none.
fn last_of(text: &str) -> char
    ensures { result ≡ last_or 0 (chars text.now) }
{
    let mut last = '\0';
    for c in text.chars() {
        last = c;
    }
    last
}

/// Whether the text begins with `^` or ends with `$`.
fn has_anchor(text: &str) -> bool
    ensures yes { IsTrue result → HasAnchor (chars text.now) }
    ensures no { result ≡ false → ¬ (HasAnchor (chars text.now)) }
{
    first_of(text) == '^' || last_of(text) == '$'
}

/// Whether the text that was read is an I-Regexp within the limits.
fn is_pattern(known: &KnownPattern) -> bool
    ensures yes { IsTrue result → IsPattern (text_of known.now.text) }
    ensures no { result ≡ false → ¬ (IsPattern (text_of known.now.text)) }
{
    known.pattern.is_some()
}

/// A pattern in the place of the text, which is none, or stands between slashes.
fn pattern_in_place(alloc: Global, text: &str) -> Result<Option<String>, AllocError>
    ensures { IfOk result (λ o. IfSome o (λ s. IsPattern (text_of s))) }
{
    let Some(plain) = plain_pattern(alloc, text)? else {
        return Ok(None);
    };
    match Pattern::read(alloc, plain.as_str())? {
        Some(_pattern) => Ok(Some(plain)),
        None => Ok(None),
    }
}

/// What is to be told of one literal pattern, if it is a trap.
fn trap_of(alloc: Global, known: &KnownPattern) -> Result<Option<Trap>, AllocError>
    ensures right { IfOk result (λ o. IfSome o (λ t. IsRightTrap (text_of known.now.text) t)) }
    ensures whole { IfOk result (λ o. IfNone o (¬ (IsTrap (text_of known.now.text)))) }
{
    if !is_pattern(known) {
        let plain = pattern_in_place(alloc, known.text.as_str())?;
        return Ok(Some(Trap::NoPattern(plain)));
    }
    if has_slashes(known.text.as_str()) {
        let plain = pattern_in_place(alloc, known.text.as_str())?;
        return Ok(Some(Trap::Slashed(plain)));
    }
    if has_anchor(known.text.as_str()) {
        return Ok(Some(Trap::Anchors));
    }
    Ok(None)
}

/// Behind the notes of some texts that of one more, if it is a trap.
fn add_note(
    alloc: Global,
    notes: &mut Vec<PatternNote>,
    known: &KnownPattern,
) -> Result<(), AllocError>
    ensures { OnOk result ((ts : List Text) → AreNotes ts notes.old.items
        → AreNotes (ts ++ text_of known.now.text ∷ []) notes.new.items) }
{
    let Some(trap) = trap_of(alloc, known)? else {
        return Ok(());
    };
    let pattern = String::from_str(alloc, known.text.as_str())?;
    notes.push(PatternNote { pattern, trap })?;
    Ok(())
}

/// What is to be told of the literal patterns of an accepted query, the texts that stand in it as second
/// arguments of `match` and `search`: of those that are no I-Regexps, of those between slashes, and of those
/// with anchors, in the order of the query.
///
/// # Errors
///
/// `AllocError` where a growth of memory was refused.
pub fn pattern_notes(alloc: Global, plan: &Plan) -> Result<Vec<PatternNote>, AllocError>
    // One of each that is a trap, and it is right of it.
    ensures { IfOk result (λ notes. AreNotes (literal_patterns (planned_query plan.now)) notes.items) }
{
    let mut notes = Vec::new(alloc);
    let patterns = plan.patterns();
    for known in patterns {
        add_note(alloc, &mut notes, known)?;
    }
    Ok(notes)
}

/// Shows the text as a literal of a query in double quotes (RFC 9535, 2.3.1.1).
fn push_literal(line: &mut PlainLine, text: &str) -> Result<(), AllocError> {
    line.push_text("\"")?;
    for (at, c) in text.chars().enumerate() {
        if at >= PATTERN_CHARACTERS {
            line.push_gap()?;
            break;
        }
        if matches!(c, '"' | '\\') {
            line.push_text("\\")?;
        }
        line.push_shown(c)?;
    }
    line.push_text("\"")
}

/// What stands before the pattern.
fn words_before(trap: &Trap) -> &'static str {
    match trap {
        Trap::NoPattern(_) => "",
        Trap::Slashed(_) => "the slashes stand for themselves in ",
        Trap::Anchors => "^ and $ stand for themselves in ",
    }
}

/// What stands behind it, before what is to be written in its place.
fn words_behind(trap: &Trap) -> &'static str {
    match trap {
        Trap::NoPattern(Some(_)) => " is no pattern of RFC 9485, so it matches nothing",
        Trap::NoPattern(None) => {
            " is no pattern of RFC 9485 within the limits, so it matches nothing"
        }
        Trap::Slashed(_) => "",
        Trap::Anchors => ": match is of the whole text, search of a part",
    }
}

/// A line for a terminal that tells the note, with no line feed: the pattern as a literal of a query in
/// double quotes, why it may not match what was meant, and what is to be written in its place, where that is
/// known.
///
/// # Errors
///
/// `AllocError` where a growth of memory was refused.
pub fn write_pattern_note(alloc: Global, note: &PatternNote) -> Result<String, AllocError>
    // No character that has to be escaped is among those that it gives.
    ensures { IfOk result (λ s. is_shown (text_of s) ≡ true) }
{
    let mut line = PlainLine::new(alloc);
    line.push_text(words_before(&note.trap))?;
    push_literal(&mut line, note.pattern.as_str())?;
    line.push_text(words_behind(&note.trap))?;
    if let Trap::NoPattern(Some(plain)) | Trap::Slashed(Some(plain)) = &note.trap {
        line.push_text(": ")?;
        push_literal(&mut line, plain.as_str())?;
    }
    Ok(line.into_text())
}
