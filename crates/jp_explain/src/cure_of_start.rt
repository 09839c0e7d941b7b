//! What helps where no query begins as the text does.

use crate::meant::Cure;

/// Whether the text is names, indexes and wildcards with dots and brackets between, as `.a[0].b`.
fn is_path(text: &str) -> bool {
    let is_plain = text.chars().all(|c| c.is_ascii_alphanumeric()
        || matches!(c, '_' | '.' | '[' | ']' | '*'));
    is_plain && !text.contains("[]") && !text.contains(".[") && !text.ends_with('.')
}

/// A path that lacks its `$`.
fn rooted(text: &str) -> Option<Cure<'_>> {
    let path = text.strip_prefix('@').unwrap_or(text);
    let path = if path.starts_with(".[") {
        path.strip_prefix('.')?
    } else {
        path
    };
    if !is_path(path) {
        return None;
    }
    if path.starts_with(['.', '[']) {
        return Some(Cure::Rooted { dot: "", path });
    }
    match path.contains(['.', '[']) {
        true => Some(Cure::Rooted { dot: ".", path }),
        false => None,
    }
}

/// What helps with a text of another language, or with one that the shell has changed.
fn words_of_start(text: &str) -> Option<&'static str> {
    match text {
        "" => Some("the query is empty: did the shell change it?"),
        "help" => Some("the help: jp --help"),
        "version" => Some("the version: jp --version"),
        "." => Some("the whole document is $"),
        _ if text.starts_with('$') => Some("no blank before $"),
        _ if text.starts_with(['\'', '"']) => Some("no quotes in the query: $.a"),
        _ if text.starts_with('{') => Some("no braces: $.a"),
        _ if text.starts_with(".[]") => Some("all items are $[*]"),
        _ if text.contains("select(") => Some("a filter: $[?@.b==\"x\"]"),
        _ if text.starts_with('/') => Some("names stand behind dots: $.a.b"),
        _ if text.chars().all(|c| c.is_alphanumeric() || c == '_') => {
            Some("did the shell change it? $ stays in single quotes: '$.a'")
        }
        _ => None,
    }
}

/// How the names of files end that are mostly read.
const FILE_ENDS: [&str; 8] = [
    ".json", ".jsonl", ".ndjson", ".geojson", ".log", ".txt", ".gz", ".zst",
];

/// Whether the text is the name of a file, by its end, and no path of another language.
fn is_file(text: &str) -> bool {
    let is_name = text.starts_with(|c: char| c.is_alphanumeric() || c == '_' || c == '/');
    let is_below = text.starts_with("./") || text.starts_with("../");
    (is_name || is_below) && FILE_ENDS.iter().any(|end| text.ends_with(*end))
}

/// What helps where no query begins as the text does.
pub(crate) fn cure_of_start(query: &str) -> Cure<'_> {
    let text = query.trim();
    if is_file(text) {
        return Cure::File(text);
    }
    if let Some(words) = words_of_start(text) {
        return Cure::Words(words);
    }
    match rooted(text) {
        Some(cure) => cure,
        None => Cure::Words("a query begins with $: $.a"),
    }
}
