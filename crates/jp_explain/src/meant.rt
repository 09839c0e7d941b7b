//! What was meant at a mark, in the user's own words.

use std::fmt;

/// What is to be written in the place of what stands at a mark.
#[derive(Clone, Copy)]
pub(crate) enum Cure<'q> {
    /// What these words say.
    Words(&'static str),
    /// A name in quotes behind that front. A part of the name stands before the mark, the other behind it.
    Quoted {
        front: &'q str,
        start: &'q str,
        rest: &'q str,
    },
    /// A number behind that front, which is a name in quotes, or an index.
    Numbered {
        front: &'q str,
        digits: &'q str,
    },
    /// A path that lacks its `$`, and perhaps a dot behind it.
    Rooted {
        dot: &'static str,
        path: &'q str,
    },
    /// The name of a file in the query's place.
    File(&'q str),
    /// A name that lacks the dot between that sign and itself.
    Dotted {
        sign: &'static str,
        name: &'q str,
    },
    /// A text that lacks its quotes, in two parts.
    Text {
        start: &'q str,
        rest: &'q str,
    },
    /// The same, or a name that lacks `@.`.
    Value {
        start: &'q str,
        rest: &'q str,
    },
    /// A name that lacks `@.`, in two parts.
    Item {
        start: &'q str,
        rest: &'q str,
    },
    /// A filter of that list, by what is asked of each of its items.
    Filter {
        list: &'q str,
        item: &'q str,
        comparison: &'q str,
    },
    /// A name at any depth below there, by what is asked of it.
    Deep {
        front: &'q str,
        name: &'q str,
        comparison: &'q str,
    },
    /// A variable of the shell within single quotes.
    Variable(&'q str),
}

impl fmt::Display for Cure<'_> {
    fn fmt<W: fmt::Write>(&self, f: &mut fmt::Formatter<W>) -> fmt::Result {
        match self {
            Cure::Words(words) => write!(f, "{words}"),
            Cure::Quoted { front, start, rest } => {
                write!(f, "in quotes: {front}[\"{start}{rest}\"]")
            }
            Cure::Numbered { front, digits } => {
                write!(
                    f,
                    "in quotes: {front}[\"{digits}\"]; an item: {front}[{digits}]"
                )
            }
            Cure::Rooted { dot, path } => write!(f, "a query begins with $: ${dot}{path}"),
            Cure::Dotted { sign, name } => write!(f, "a dot before the name: {sign}.{name}"),
            Cure::Text { start, rest } => write!(f, "a text in quotes: \"{start}{rest}\""),
            Cure::Value { start, rest } => write!(
                f,
                "a text in quotes: \"{start}{rest}\"; of the item: @.{start}{rest}"
            ),
            Cure::Item { start, rest } => write!(f, "of the item: @.{start}{rest}"),
            Cure::Filter {
                list,
                item,
                comparison,
            } => { write!(f, "may select several: write {list}[?@{item}{comparison}]") }
            Cure::Deep {
                front,
                name,
                comparison,
            } => write!(
                f,
                "may select several: write ({front}.{name}{comparison} || {front}..[?@.{name}{comparison}])"
            ),
            Cure::File(name) => write!(f, "the query stands before the files: jp '$.a' {name}"),
            Cure::Variable(name) => write!(
                f,
                "a dot before the name: $.{name}; no variable of the shell stands in single quotes"
            ),
        }
    }
}

/// What helps with a function behind a dot.
fn cure_of_call(name: &str) -> Cure<'static> {
    let words = match name {
        "keys" | "key" | "path" | "paths" => "names stand in the paths that are printed",
        "sum" | "min" | "max" | "avg" | "add" => "nothing is computed in a query",
        "first" => "the first is [0]",
        "last" => "the last is [-1]",
        "length" | "size" | "count" => "a function stands in front, in a filter: length(@.b)>2",
        _ => "no function stands behind a dot: a pattern is search(@.b,\"x\"), in a filter",
    };
    Cure::Words(words)
}

const SEVERAL: Cure<'static> = Cure::Words("may select several: write @.a[?@.b==\"x\"]");

/// What ends a query to its left and to its right, in a filter.
pub(crate) const OPERAND_ENDS: [char; 14] = [
    '?', '(', ')', '&', '|', ',', '=', '!', '<', '>', ' ', '\t', '\n', '\r',
];

/// What ends a name that should stand in quotes.
pub(crate) const NAME_ENDS: [char; 24] = [
    '.', '[', ']', '?', '(', ')', '&', '|', ',', '=', '!', '<', '>', ' ', '\t', '\n', '\r', '"',
    '\'', '\\', '*', '+', '~', '^',
];

/// What makes a query select several nodes.
const PLURAL: [char; 4] = ['*', ':', '?', ','];

/// The part of the text to its first such character.
pub(crate) fn front_of<'q>(text: &'q str, ends: &[char]) -> &'q str {
    match text.split_once(ends) {
        Some((front, _)) => front,
        None => text,
    }
}

/// The query in a filter, or the whole one, that ends the text; nothing where it holds more than names,
/// indexes and wildcards.
fn operand_in(text: &str) -> &str {
    let text = text.trim_end();
    let operand = match text.rsplit_once(&OPERAND_ENDS) {
        Some((_, operand)) => operand,
        None => text,
    };
    let opened = operand.chars().filter(|c| *c == '[').count();
    let closed = operand.chars().filter(|c| *c == ']').count();
    if opened == closed && operand.starts_with(['$', '@']) {
        operand
    } else {
        ""
    }
}

/// Whether all its characters may stand in a name without quotes.
pub(crate) fn is_name(text: &str) -> bool {
    text.chars()
        .all(|c| c.is_ascii_alphanumeric() || c == '_' || c >= '\u{80}')
}

/// The name behind a `.` that goes on with what stands only in quotes, or is a function's.
pub(crate) fn name_in_quotes<'q>(before: &'q str, behind: &'q str) -> Option<Cure<'q>> {
    let (front, start) = before.rsplit_once('.')?;
    if !is_name(start) {
        return None;
    }
    if behind.starts_with('(') && !start.is_empty() {
        return Some(cure_of_call(start));
    }
    let rest = front_of(behind, &NAME_ENDS);
    if rest.is_empty() {
        return None;
    }
    let front = match front.ends_with('.') {
        true => before.strip_suffix(start)?,
        false => front,
    };
    let front = operand_in(front);
    if start.is_empty() && rest.chars().all(|c| c.is_ascii_digit()) {
        return Some(Cure::Numbered {
            front,
            digits: rest,
        });
    }
    Some(Cure::Quoted { front, start, rest })
}

/// The name that stands in brackets without quotes.
pub(crate) fn name_of_selector<'q>(before: &'q str, behind: &'q str) -> Option<Cure<'q>> {
    let front = before.strip_suffix('[')?;
    let rest = front_of(behind, &NAME_ENDS);
    let first = rest.chars().next()?;
    if !first.is_alphabetic() {
        return None;
    }
    Some(Cure::Quoted {
        front: operand_in(front),
        start: "",
        rest,
    })
}

/// Whether `!` stands before a query that is compared.
pub(crate) fn in_parentheses(before: &str, behind: &str) -> bool {
    let text = before.trim_end();
    let is_negated = match text.strip_suffix(operand_in(text)) {
        Some(front) => front.trim_end().ends_with('!'),
        None => false,
    };
    is_negated && behind.starts_with(['=', '!', '<', '>'])
}

/// The comparison that begins the text, up to what ends it outside of quotes; none with a call or a query.
fn comparison_in(text: &str) -> Option<&str> {
    let mut quote = None;
    let mut is_escaped = false;
    for (at, c) in text.char_indices() {
        match (quote, c) {
            _ if is_escaped => is_escaped = false,
            (Some(_), '\\') => is_escaped = true,
            (Some(open), _) if open == c => quote = None,
            (Some(_), _) => {}
            (None, '"' | '\'') => quote = Some(c),
            (None, '(' | '[') => return None,
            (None, '&' | '|' | ')' | ']' | ',') => {
                let (comparison, _) = text.split_at_checked(at)?;
                return Some(comparison.trim_end());
            }
            (None, _) => {}
        }
    }
    None
}

/// A query, up to a last `[*]` or `.*` and behind it, which selects one node at most there.
fn parted(operand: &str) -> Option<(&str, &str)> {
    let parts = match operand.rsplit_once("[*]") {
        Some(parts) if !parts.1.contains(".*") => parts,
        _ => operand.rsplit_once(".*")?,
    };
    let is_one = !parts.1.contains(&PLURAL) && !parts.1.contains("..");
    if is_one { Some(parts) } else { None }
}

/// A query with one `..`, before which and behind which it selects one node at most, by names behind it.
fn deepened(operand: &str) -> Option<(&str, &str)> {
    let (front, name) = operand.split_once("..")?;
    let is_one = !front.contains(&PLURAL) && !name.contains(&PLURAL) && !name.contains("..");
    if is_one && !name.starts_with('[') {
        Some((front, name))
    } else {
        None
    }
}

/// A filter of the items, in the place of the comparison of them all.
pub(crate) fn a_test_of_items<'q>(before: &'q str, behind: &'q str) -> Cure<'q> {
    let operand = operand_in(before);
    let Some(comparison) = comparison_in(behind) else {
        return SEVERAL;
    };
    if let Some((list, item)) = parted(operand) {
        return Cure::Filter {
            list,
            item,
            comparison,
        };
    }
    match deepened(operand) {
        Some((front, name)) => Cure::Deep {
            front,
            name,
            comparison,
        },
        None => SEVERAL,
    }
}
