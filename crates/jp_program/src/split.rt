//! A query that the shell has split at its blanks, and what asks for the quotes.

ghost use Rattle.std.specs.Prelude.{◌≡◌, ◌++◌, IfOk, string_bytes};
ghost use Rattle.std.specs.Str.{chars};
ghost use Rattle.clap.specs.Walk.{texts};
ghost use Rattle.jp_program.specs.Split.{begins_as_query, begins_with_root, closes_first, is_operator};
ghost use Rattle.jp_program.specs.Split.{looks_like_query, looks_split, question, some_looks_so};

use std::alloc::AllocError;

/// The line that asks for the quotes.
pub(crate) const QUESTION: &str = "jp: is the query in single quotes?\n";

/// Whether the name of a file looks like a part of a query: it is an operator, begins with `$.`, `$[`, `@.`
/// or `@[`, ends with `]`, or has a bracket that another part has opened.
pub(crate) fn looks_like_query(name: &str) -> bool
    ensures { result ≡ looks_like_query name.now }
{
    let bytes = name.as_bytes();
    is_operator(name) || begins_as_query(bytes) || bytes.ends_with(b"]") || closes_first(bytes)
}

/// Whether a name is one of the operators that may stand between blanks.
fn is_operator(name: &str) -> bool
    ensures { result ≡ is_operator name.now }
{
    name == "==" || name == "!=" || name == "<=" || name == ">=" || name == "&&" || name == "||"
}

/// Whether a name begins as a query does, or as one inside a filter.
fn begins_as_query(name: &[u8]) -> bool
    ensures { result ≡ begins_as_query name.now }
{
    name.starts_with(b"$.")
        || name.starts_with(b"$[")
        || name.starts_with(b"@.")
        || name.starts_with(b"@[")
}

/// Whether the first bracket in a name closes.
fn closes_first(name: &[u8]) -> bool
    ensures { result ≡ closes_first name.now }
{
    for byte in name {
        if *byte == b'[' {
            return false;
        }
        if *byte == b']' {
            return true;
        }
    }
    false
}

/// Whether some of these names looks like a part of a query.
fn some_looks_so(names: &[&str]) -> bool
    ensures { result ≡ some_looks_so (texts names.now) }
{
    for name in names {
        if looks_like_query(name) {
            return true;
        }
    }
    false
}

/// Whether a text begins with `$`.
fn begins_with_root(text: &str) -> bool
    ensures { result ≡ begins_with_root (chars text.now) }
{
    text.starts_with('$')
}

/// Whether what stands for the query begins as one, and some file looks like a part of it.
fn looks_split(query: &str, files: &[&str]) -> bool
    ensures { result ≡ looks_split (chars query.now) (texts files.now) }
{
    begins_with_root(query) && some_looks_so(files)
}

/// The line that asks for the quotes, where the query looks split, and else nothing.
fn question(query: &str, files: &[&str]) -> &'static str
    ensures { result.now ≡ question (chars query.now) (texts files.now) }
{
    if looks_split(query, files) {
        QUESTION
    } else {
        ""
    }
}

/// These lines, and behind them the line that asks for the quotes, where the query looks split.
pub(crate) fn with_question(
    mut lines: String,
    query: &str,
    files: &[&str],
) -> Result<String, AllocError>
    ensures { IfOk result (λ s. string_bytes s
        ≡ string_bytes lines ++ question (chars query.now) (texts files.now)) }
{
    lines.push_str(question(query, files))?;
    Ok(lines)
}
