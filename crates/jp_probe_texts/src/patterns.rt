//! Patterns: `{"pattern":{"text":"a|b","texts":["a","ab"],"before":"","steps":"ab","anew":true}}`.
//!
//! Of each text is said whether the `whole` of it matches, a `part` or `no` part, by the pattern as it is
//! read and by those that are compiled for either question; `unlike` where these differ.

use jp_probe_parts::{Row, text_in};
use jp_regexp::{CompileBudget, Pattern, Question, Terms};
use serde::Serialize;
use serde_json::Value;
use std::alloc::{AllocError, Global};

/// What of a text matches.
#[derive(Clone, Copy, PartialEq, Serialize)]
#[serde(rename_all = "snake_case")]
pub enum Match {
    Whole,
    Part,
    No,
    Unlike,
}

/// What stands behind a character.
#[derive(Clone, Copy, PartialEq, Serialize)]
struct Stands {
    accepts: bool,
    terms: u64,
    none: bool,
}

/// A pattern as it is read, and as it is compiled for whole texts and for parts.
#[derive(Drop)]
pub struct Patterns {
    pub read: Pattern,
    whole: Pattern,
    part: Pattern,
}

/// What is said of a pattern.
#[derive(Drop, Serialize)]
struct PatternAnswer {
    size: u64,
    texts: Vec<Match>,
    /// The most terms that stood before the steps.
    most: u64,
    /// What stands before the steps, and behind each.
    steps: Vec<Stands>,
}

/// Answers `pattern`, of a text: `null` where it is no pattern.
pub fn answer_pattern(alloc: Global, row: Row<'_>) -> anyhow::Result<String> {
    row.has_only(&["text", "texts", "before", "steps", "anew"])?;
    match read_patterns(alloc, row.text("text")?)? {
        Some(patterns) => said(alloc, row, &patterns),
        None => Ok(serde_json::to_string(alloc, &None::<bool>)?),
    }
}

/// The pattern of a text, if it is one.
pub fn read_patterns(alloc: Global, text: &str) -> anyhow::Result<Option<Patterns>> {
    let mut budget = CompileBudget::new();
    let read = Pattern::read(alloc, text)?;
    let whole = Pattern::compiled(alloc, text, Question::Whole, &mut budget)?;
    let part = Pattern::compiled(alloc, text, Question::Part, &mut budget)?;
    match (read, whole, part) {
        (Some(read), Some(whole), Some(part)) => Ok(Some(Patterns { read, whole, part })),
        (None, None, None) => Ok(None),
        _ => Err(anyhow::anyhow!("a text is a pattern by one call alone")),
    }
}

/// What is said of a pattern, as it is read and compiled.
///
/// `texts` are those of which is asked what of them matches, `before` the characters that are read before the
/// steps, and `steps` those of which each is a step. `anew` says whether a match may begin behind each
/// character.
fn said(alloc: Global, row: Row<'_>, patterns: &Patterns) -> anyhow::Result<String> {
    let before = row.text_if_any("before")?.unwrap_or("");
    let steps = row.text_if_any("steps")?.unwrap_or("");
    let anew = row.flag("anew")?;
    let mut terms = patterns.read.start(alloc)?;
    let answer = PatternAnswer {
        size: patterns.read.unrolled_size(),
        texts: texts_said(alloc, row.items("texts")?, patterns)?,
        most: most_before(before, anew, &mut terms)?,
        steps: stepped(alloc, steps, anew, &mut terms)?,
    };
    Ok(serde_json::to_string(alloc, &answer)?)
}

/// What of each text matches.
fn texts_said(alloc: Global, texts: &[Value], patterns: &Patterns) -> anyhow::Result<Vec<Match>> {
    let mut said = Vec::new(alloc);
    for text in texts {
        said.push(matched(alloc, patterns, text_in(text)?)?)?;
    }
    Ok(said)
}

/// Reads what stands before the steps. Gives the most terms that stood there.
fn most_before(before: &str, anew: bool, terms: &mut Terms<'_>) -> anyhow::Result<u64> {
    let mut most = terms.len();
    for c in before.chars() {
        step(terms, c, anew)?;
        most = most.max(terms.len());
    }
    Ok(most)
}

/// What stands before the steps, and behind each.
fn stepped(
    alloc: Global,
    steps: &str,
    anew: bool,
    terms: &mut Terms<'_>,
) -> anyhow::Result<Vec<Stands>> {
    let mut stands = vec![in alloc; standing(terms)]?;
    for c in steps.chars() {
        step(terms, c, anew)?;
        stands.push(standing(terms))?;
    }
    Ok(stands)
}

/// What stands now.
fn standing(terms: &Terms<'_>) -> Stands {
    Stands {
        accepts: terms.accepts(),
        terms: terms.len(),
        none: terms.is_empty(),
    }
}

/// A step. Where it is refused memory it is made again, from where the terms were.
fn step(terms: &mut Terms<'_>, c: char, anew: bool) -> anyhow::Result<()> {
    let before = standing(terms);
    if terms.step(c, anew).is_err() {
        if before != standing(terms) {
            return Err(anyhow::anyhow!("a refused step changed the terms"));
        }
        terms.step(c, anew)?;
    }
    Ok(())
}

/// What of the text matches, as all say.
pub fn matched(alloc: Global, patterns: &Patterns, text: &str) -> Result<Match, AllocError> {
    let said = matched_by(alloc, &patterns.read, &patterns.read, text)?;
    if matched_by(alloc, &patterns.whole, &patterns.part, text)? == said
        && matched_by(alloc, &patterns.part, &patterns.whole, text)? == said
    {
        Ok(said)
    } else {
        Ok(Match::Unlike)
    }
}

/// What of the text matches, where the one is asked of the whole and the other of a part.
fn matched_by(
    alloc: Global,
    of_whole: &Pattern,
    of_part: &Pattern,
    text: &str,
) -> Result<Match, AllocError> {
    let whole = of_whole.matches(alloc, text)?;
    let part = of_part.found_in(alloc, text)?;
    Ok(match (whole, part) {
        (true, true) => Match::Whole,
        (false, true) => Match::Part,
        (false, false) => Match::No,
        (true, false) => Match::Unlike,
    })
}
