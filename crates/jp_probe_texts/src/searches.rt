//! A pattern on many texts.
//!
//! `{"search":{"text":"qz","around":"a","word":"qz","before":36,"behind":18}}` asks in which texts a part
//! matches: those that have the word, with what stands around it up to so many times before and behind.
//! `{"counted":{"text":"a|b","characters":"abc","longest":5}}` asks how many of all such texts match.

use crate::patterns::{Match, Patterns, matched, read_patterns};
use crate::texts::{repeated, texts_of};
use jp_probe_parts::Row;
use serde::Serialize;
use std::alloc::{AllocError, Global};

/// A search for a word among other text, which stands up to so many times behind it.
#[derive(Clone, Copy)]
struct Search<'v> {
    around: &'v str,
    word: &'v str,
    behind: u64,
}

/// In how many texts a part matches, of how many, and of how many both patterns do not say the same.
#[derive(Clone, Copy, Serialize)]
struct SearchAnswer {
    found: u64,
    places: u64,
    unlike: u64,
}

/// How many texts match and in how many a part does, each with a check number.
#[derive(Drop, Serialize)]
struct CountedAnswer {
    whole: Vec<u64>,
    part: Vec<u64>,
    unlike: u64,
}

/// How many texts, and a check number of which they are.
#[derive(Clone, Copy)]
struct Count {
    texts: u64,
    check: u64,
}

/// The pattern of a text, which has to be one.
fn pattern_of(alloc: Global, text: &str) -> anyhow::Result<Patterns> {
    match read_patterns(alloc, text)? {
        Some(patterns) => Ok(patterns),
        None => Err(anyhow::anyhow!("no pattern")),
    }
}

impl SearchAnswer {
    /// One text more, of which this is said.
    fn add(&mut self, said: Match) {
        self.places = self.places.saturating_add(1);
        match said {
            Match::Whole | Match::Part => self.found = self.found.saturating_add(1),
            Match::No => {}
            Match::Unlike => self.unlike = self.unlike.saturating_add(1),
        }
    }
}

/// Answers `search`.
pub fn answer_search(alloc: Global, row: Row<'_>) -> anyhow::Result<String> {
    row.has_only(&["text", "around", "word", "before", "behind"])?;
    let patterns = pattern_of(alloc, row.text("text")?)?;
    let search = Search {
        around: row.text("around")?,
        word: row.text("word")?,
        behind: row.number("behind")?,
    };
    let mut answer = SearchAnswer {
        found: 0,
        places: 0,
        unlike: 0,
    };
    for before in 0..row.number("before")?.saturating_add(1) {
        search.add_behind(alloc, &patterns, before, &mut answer)?;
    }
    Ok(serde_json::to_string(alloc, &answer)?)
}

impl Search<'_> {
    /// Adds the texts in which what stands around is so many times before the word.
    fn add_behind(
        self,
        alloc: Global,
        patterns: &Patterns,
        before: u64,
        answer: &mut SearchAnswer,
    ) -> Result<(), AllocError> {
        for behind in 0..self.behind.saturating_add(1) {
            let mut text = repeated(alloc, self.around, before)?;
            text.push_str(self.word)?;
            text.push_str(repeated(alloc, self.around, behind)?.as_str())?;
            answer.add(matched(alloc, patterns, text.as_str())?);
        }
        Ok(())
    }
}

impl Count {
    /// One text more, the i-th.
    fn add(&mut self, i: u64) {
        self.texts = self.texts.saturating_add(1);
        self.check = self.check.wrapping_add(i.wrapping_mul(i.wrapping_add(6))) % 9_973;
    }

    /// Both numbers.
    fn numbers(&self, alloc: Global) -> Result<Vec<u64>, AllocError> {
        Ok(vec![in alloc; self.texts, self.check]?)
    }
}

/// All texts of up to so many of the characters, the shorter ones first.
fn texts_up_to(alloc: Global, characters: &str, longest: u64) -> Result<Vec<String>, AllocError> {
    let mut texts = Vec::new(alloc);
    for length in 0..longest.saturating_add(1) {
        texts.append(&mut texts_of(alloc, characters, length)?)?;
    }
    Ok(texts)
}

/// Answers `counted`, of all texts of some characters.
pub fn answer_counted(alloc: Global, row: Row<'_>) -> anyhow::Result<String> {
    row.has_only(&["text", "characters", "longest"])?;
    let patterns = pattern_of(alloc, row.text("text")?)?;
    let texts = texts_up_to(alloc, row.text("characters")?, row.number("longest")?)?;
    let mut whole = Count { texts: 0, check: 0 };
    let mut part = Count { texts: 0, check: 0 };
    let mut unlike = 0u64;
    let mut i = 0u64;
    for text in &texts {
        i = i.saturating_add(1);
        match matched(alloc, &patterns, text.as_str())? {
            Match::Whole => {
                whole.add(i);
                part.add(i);
            }
            Match::Part => part.add(i),
            Match::No => {}
            Match::Unlike => unlike = unlike.saturating_add(1),
        }
    }
    let answer = CountedAnswer {
        whole: whole.numbers(alloc)?,
        part: part.numbers(alloc)?,
        unlike,
    };
    Ok(serde_json::to_string(alloc, &answer)?)
}
