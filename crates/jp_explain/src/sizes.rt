//! How much is shown of a query, of a line and of a pattern, and how much is looked at.

/// How many columns of a query are shown.
pub(crate) const QUERY_COLUMNS: usize = 70;

/// How many of them before the mark, where the query is cut, without the `..`.
pub(crate) const QUERY_COLUMNS_BEFORE: usize = 35;

/// How many of them behind the mark, where the query is cut, without the `..`.
pub(crate) const QUERY_COLUMNS_BEHIND: usize = 31;

/// How many characters are shown of what helps.
pub(crate) const HELP_CHARACTERS: usize = 100;

/// How many bytes of a line are shown.
pub(crate) const LINE_BYTES: usize = 60;

/// How many of them before the mark, where the line is cut.
pub(crate) const LINE_BYTES_BEFORE: usize = 30;

/// How many of them behind the mark, where the line is cut, but for the rest of a character.
pub(crate) const LINE_BYTES_BEHIND: usize = 27;

/// How many characters of a path are shown.
pub(crate) const PATH_CHARACTERS: usize = 120;

/// How many bytes of a number are shown.
pub(crate) const NUMBER_BYTES: usize = 40;

/// How many characters of a pattern are shown.
pub(crate) const PATTERN_CHARACTERS: usize = 100;

/// How many characters on each side of a mark are looked at.
pub(crate) const NEAR_CHARACTERS: usize = 100;

/// How many columns the escape of a unit of UTF-16 takes.
pub(crate) const ESCAPE_COLUMNS: usize = 6;
