//! What the functions give: those of RFC 9535 (2.4.4 to 2.4.8), and `xor`, this project's own. Its other one,
//! `distinct`, stands in `jp_eval`.

ghost use Rattle.std.specs.Prelude.{◌≡◌, Some, length, option_map, IfOk};
ghost use Rattle.std.specs.Str.{chars};
ghost use Rattle.jp_doc.specs.Json as json;
ghost use Rattle.jp_node.specs.Inside.{kind_value, members_in};
ghost use Rattle.jp_tree.specs.View.{text_of as characters};
ghost use Rattle.jp_compiled.specs.Parts.{constant_of};
ghost use Rattle.jp_value.specs.Functions as spec;
ghost use Rattle.jp_value.specs.Kinds.{given_value};
ghost use Rattle.jp_value.specs.inner.Texts.{text_in};
ghost use Rattle.jp_value.specs.Literals.{literal_value};
ghost use Rattle.jp_value.specs.RightTests.{tests};

use crate::read_pattern::ReadPattern;
use jp_compiled::{Constant, KnownPattern};
use jp_node::{Kind, Members};
use std::alloc::{AllocError, Global};

/// The value of a literal.
pub fn literal(constant: &Constant) -> Kind<'_>
    ensures { kind_value result ≡ literal_value (constant_of constant.now) }
{
    match constant {
        Constant::Whole(number) => Kind::Whole(number.value),
        Constant::Written(number) => Kind::Written(number.number()),
        Constant::Text(text) => Kind::Text(text.as_str()),
        Constant::Truth(truth) => Kind::Truth(*truth),
        Constant::Null => Kind::Null,
    }
}

fn count_characters(text: &str) -> usize
    ensures { result ≡ length (chars text.now) }
{
    text.chars().count()
}

/// The number of scalar values of a text, of items of an array, or of members of an object, and nothing of
/// anything else (RFC 9535, 2.4.4).
///
/// It takes memory only for an object, whose members are gathered.
///
/// `AllocError` if a growth was refused.
pub fn length(alloc: Global, given: Option<Kind<'_>>) -> Result<Option<Kind<'_>>, AllocError>
    ensures { IfOk result (λ n. given_value n ≡ spec.length_value (given_value given.entry)) }
{
    match given {
        Some(kind) => length_of(alloc, kind),
        None => Ok(None),
    }
}

/// The same of a value.
fn length_of(alloc: Global, kind: Kind<'_>) -> Result<Option<Kind<'_>>, AllocError>
    ensures { IfOk result (λ n. given_value n ≡ spec.length_value (Some (kind_value kind.entry))) }
{
    match kind {
        Kind::Text(text) => Ok(Some(Kind::Whole(count_characters(text) as i128))),
        Kind::Array(items) => Ok(Some(Kind::Whole(items.count() as i128))),
        Kind::Object(members) => Ok(Some(Kind::Whole(count_members(alloc, members)? as i128))),
        Kind::Null => Ok(None),
        Kind::Truth(_) => Ok(None),
        Kind::Whole(_) => Ok(None),
        Kind::Written(_) => Ok(None),
    }
}

/// How many members an object has.
fn count_members(alloc: Global, members: Members<'_>) -> Result<usize, AllocError>
    ensures { IfOk result (λ n. n ≡ spec.member_count (members_in members.entry)) }
{
    let list = members.gather(alloc)?;
    Ok(list.range().len())
}

/// The text that is given, if it is one.
pub(crate) fn text_of(given: Option<Kind<'_>>) -> Option<&str>
    ensures { option_map (λ s. chars s.now) result ≡ text_in (given_value given.entry) }
{
    match given {
        Some(Kind::Text(text)) => Some(text),
        _ => None,
    }
}

/// Whether exactly one of the two is true.
pub fn exactly_one(left: bool, right: bool) -> bool
    ensures { result ≡ spec.exactly_one left right }
{
    left != right
}

/// Whether the whole text matches the pattern (RFC 9535, 2.4.6). Of anything but two texts it is false.
///
/// `AllocError` if a growth was refused.
pub fn matches(
    alloc: Global,
    text: Option<Kind<'_>>,
    pattern_text: Option<Kind<'_>>,
) -> Result<bool, AllocError>
    ensures { IfOk result (λ b. b ≡ spec.tested tests.is_match (given_value text.entry)
        (given_value pattern_text.entry)) }
{
    match (text_of(text), text_of(pattern_text)) {
        (Some(text), Some(pattern_text)) => is_match_read(alloc, text, pattern_text),
        _ => Ok(false),
    }
}

/// Whether some part of the text matches the pattern (RFC 9535, 2.4.7). Of anything but two texts it is
/// false.
///
/// `AllocError` if a growth was refused.
pub fn searches(
    alloc: Global,
    text: Option<Kind<'_>>,
    pattern_text: Option<Kind<'_>>,
) -> Result<bool, AllocError>
    ensures { IfOk result (λ b. b ≡ spec.tested tests.is_found (given_value text.entry)
        (given_value pattern_text.entry)) }
{
    match (text_of(text), text_of(pattern_text)) {
        (Some(text), Some(pattern_text)) => is_found_read(alloc, text, pattern_text),
        _ => Ok(false),
    }
}

/// Whether the whole text matches a literal pattern (RFC 9535, 2.4.6). Of anything but a text it is false.
///
/// `AllocError` if a growth was refused.
pub fn matches_known(
    alloc: Global,
    text: Option<Kind<'_>>,
    known: &KnownPattern,
) -> Result<bool, AllocError>
    ensures { IfOk result (λ b. b ≡ spec.tested tests.is_match (given_value text.entry)
        (Some (json.text (characters known.now.text)))) }
{
    match text_of(text) {
        Some(text) => is_match(alloc, text, known),
        None => Ok(false),
    }
}

/// Whether some part of the text matches a literal pattern (RFC 9535, 2.4.7). Of anything but a text it is
/// false.
///
/// `AllocError` if a growth was refused.
pub fn searches_known(
    alloc: Global,
    text: Option<Kind<'_>>,
    known: &KnownPattern,
) -> Result<bool, AllocError>
    ensures { IfOk result (λ b. b ≡ spec.tested tests.is_found (given_value text.entry)
        (Some (json.text (characters known.now.text)))) }
{
    match text_of(text) {
        Some(text) => is_found(alloc, text, known),
        None => Ok(false),
    }
}

/// Whether the whole text matches a literal pattern.
fn is_match(alloc: Global, text: &str, known: &KnownPattern) -> Result<bool, AllocError>
    ensures { IfOk result (λ b. b ≡ tests.is_match (chars text.now) (characters known.now.text)) }
{
    match &known.pattern {
        Some(pattern) => pattern.matches(alloc, text),
        None => Ok(false),
    }
}

/// The same, where the pattern is read first.
fn is_match_read(alloc: Global, text: &str, pattern_text: &str) -> Result<bool, AllocError>
    ensures { IfOk result (λ b. b ≡ tests.is_match (chars text.now) (chars pattern_text.now)) }
{
    // Read anew at each node, also where it is the text of a literal (README, No search for known patterns).
    let read = ReadPattern::read(alloc, pattern_text)?;
    read.matches(alloc, text)
}

/// Whether some part of the text matches a literal pattern.
fn is_found(alloc: Global, text: &str, known: &KnownPattern) -> Result<bool, AllocError>
    ensures { IfOk result (λ b. b ≡ tests.is_found (chars text.now) (characters known.now.text)) }
{
    match &known.pattern {
        Some(pattern) => pattern.found_in(alloc, text),
        None => Ok(false),
    }
}

/// The same, where the pattern is read first.
fn is_found_read(alloc: Global, text: &str, pattern_text: &str) -> Result<bool, AllocError>
    ensures { IfOk result (λ b. b ≡ tests.is_found (chars text.now) (chars pattern_text.now)) }
{
    let read = ReadPattern::read(alloc, pattern_text)?;
    read.found_in(alloc, text)
}
