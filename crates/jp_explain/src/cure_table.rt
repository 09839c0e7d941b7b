//! What is to be written in the place of what newcomers write, by what stands at the mark.

/// Where a query goes wrong.
#[derive(Clone, Copy, PartialEq, Eq)]
pub(crate) enum At {
    /// Behind `.` or `..`.
    Dot,
    /// Where a selector begins.
    Selector,
    /// In an index or a slice, or behind a selector.
    Index,
    /// Behind the segments of the query.
    Segment,
    /// Behind a query, a literal or a test of a filter.
    Test,
    /// Behind a query that may select several nodes, which is compared.
    Several,
    /// Behind the first character of an operator that has two.
    Equal,
    /// Where a value begins: on the right of an operator, or as an argument.
    Value,
    /// Where a test begins, or in a word.
    Word,
    /// Behind the `\` of an escape.
    Escape,
    /// Before a number that is not whole.
    Number,
}

/// Where the query goes wrong, what stands just before the mark and just behind it, and what helps.
pub(crate) type Row = (At, &'static str, &'static str, &'static str);

const A_FILTER: &str = "a filter begins with ?: $[?@.b]";

const A_TEST: &str = "a test stands in a filter: $[?@.a==1]";

const BOTH: &str = "both of two: $[\"a\",\"b\"]";

const NOTHING: &str = "what is not there selects nothing";

const IN_BRACKETS: &str = "in brackets: $[\"a-b\"]";

const THE_LAST: &str = "the last is [-1]";

const THE_FIRST: &str = "the first is [0]";

const NO_MINUS: &str = "no - before 0: [0]";

const A_QUOTE: &str = "a text with a quote: \"it's\"";

const IN_A_LIST: &str = "in a list: @.b[?@==\"x\"]";

const ONE_OF: &str = "one of two: @.b==\"x\" || @.b==\"y\"";

const NONE_OF: &str = "none of two: @.b!=\"x\" && @.b!=\"y\"";

const A_PART: &str = "in a text: search(@.b,\"x\"); in a list: @.b[?@==\"x\"]";

const A_PATTERN: &str = "a pattern: search(@.b,\"x\")";

const SEVERAL: &str = "may select several: @.a[?@==\"x\"]";

const NOT_COMPARED: &str = "what is in parentheses is not compared: @.b==1";

const AT_START: &str = "at the start: match(@.b,\"x.*\")";

const AT_END: &str = "at the end: match(@.b,\".*x\")";

const EITHER_CASE: &str = "in either case: match(@.b,\"[Xx]\")";

const NO_SUM: &str = "nothing is computed in a query";

const BACKSLASH: &str = "a \\ of a pattern is two: \"a\\\\.b\"";

/// Rows for what stands between names and brackets.
pub(crate) const OF_PATHS: [Row; 27] = [
    (At::Dot, ".", "[", "no . before ["),
    (At::Dot, ".", "\"", IN_BRACKETS),
    (At::Dot, ".", "'", IN_BRACKETS),
    (At::Dot, ".", "?", A_FILTER),
    (At::Dot, ".", "*", SEVERAL),
    (At::Dot, "..", ".", "two dots at most: $..a"),
    (
        At::Segment,
        "",
        "| length",
        "a length, in a filter: length(@.b)>2",
    ),
    (At::Segment, "", "| select", "a filter: $[?@.b==\"x\"]"),
    (At::Segment, "", "||", A_TEST),
    (At::Segment, "", "&&", A_TEST),
    (At::Segment, "", "and ", A_TEST),
    (At::Segment, "", "or ", A_TEST),
    (At::Segment, "", ",", BOTH),
    (At::Segment, "", "|", BOTH),
    (At::Segment, "", "=", A_TEST),
    (At::Segment, "", "!=", A_TEST),
    (At::Segment, "", "<", A_TEST),
    (At::Segment, "", ">", A_TEST),
    (
        At::Segment,
        "",
        "~",
        "names stand in the paths that are printed",
    ),
    (At::Segment, "", "^", "by what it has: $[?@.b]"),
    (At::Segment, "", "?(", A_FILTER),
    (At::Segment, "", "?@", A_FILTER),
    (At::Segment, "", "?", NOTHING),
    (At::Segment, "", "//", NOTHING),
    (At::Segment, "*", "*", "all descendants: $..*"),
    (At::Segment, "", "]", "no [ stands before this ]"),
    (At::Segment, "", ")", "no ( stands before this )"),
];

/// Rows for what stands in brackets.
pub(crate) const OF_BRACKETS: [Row; 24] = [
    (At::Selector, "[", "]", "all items are [*]"),
    (At::Selector, "[", "*", SEVERAL),
    (At::Selector, "[", "[", "one pair of brackets: [0]"),
    (At::Selector, "[", "(@.length", THE_LAST),
    (At::Selector, "[", "last]", THE_LAST),
    (At::Selector, "[", "last()]", THE_LAST),
    (At::Selector, "[", "first]", THE_FIRST),
    (At::Selector, "[", "first()]", THE_FIRST),
    (At::Selector, "[", "(@", A_FILTER),
    (At::Selector, "[", "(!@", A_FILTER),
    (At::Selector, "[", "@", A_FILTER),
    (At::Selector, "[", "!@", A_FILTER),
    (At::Selector, ",", "]", "no comma before ]"),
    (At::Selector, "[", ",", "no comma behind ["),
    (At::Selector, "[", "+", "no + before a number: [1]"),
    (At::Selector, "[", ".", "a name in quotes: $[\"a\"]"),
    (At::Index, "-", "-", "one - before a number: [-1]"),
    (At::Index, "-", "0]", NO_MINUS),
    (At::Index, "-", "0:", NO_MINUS),
    (At::Index, "-", "0,", NO_MINUS),
    (At::Index, "-", "0", "no 0 before a number: [-1]"),
    (At::Index, "", ";", "a comma between two: [0,1]"),
    (At::Index, "'", "s", A_QUOTE),
    (At::Index, "'", "t", A_QUOTE),
];

/// Rows for what stands behind a query or a test of a filter.
pub(crate) const OF_TESTS: [Row; 49] = [
    (At::Test, "", "≥", "≥ is >="),
    (At::Test, "≥", "", "≥ is >="),
    (At::Test, "≥ ", "", "≥ is >="),
    (At::Test, "", "≤", "≤ is <="),
    (At::Test, "≤", "", "≤ is <="),
    (At::Test, "≤ ", "", "≤ is <="),
    (At::Test, "", "≠", "≠ is !="),
    (At::Test, "≠", "", "≠ is !="),
    (At::Test, "≠ ", "", "≠ is !="),
    (At::Test, "", "and ", "and is &&"),
    (At::Test, "", "AND ", "AND is &&"),
    (At::Test, "", "or ", "or is ||"),
    (At::Test, "", "OR ", "OR is ||"),
    (At::Test, "\" ", "in ", IN_A_LIST),
    (At::Test, "' ", "in ", IN_A_LIST),
    (At::Test, "", "in ", ONE_OF),
    (At::Test, "", "in[", ONE_OF),
    (At::Test, "", "IN ", ONE_OF),
    (At::Test, "", "anyof ", ONE_OF),
    (At::Test, "", "nin ", NONE_OF),
    (At::Test, "", "not in ", NONE_OF),
    (At::Test, "", "NOT IN ", NONE_OF),
    (At::Test, "", "LIKE ", A_PART),
    (At::Test, "", "like ", A_PART),
    (At::Test, "", "contains ", A_PART),
    (At::Test, "", "CONTAINS ", A_PART),
    (At::Test, "", "between ", "from 1 to 2: @.b>=1 && @.b<=2"),
    (At::Test, "", "matches ", A_PATTERN),
    (At::Test, "", "~", A_PATTERN),
    (At::Test, "", "is not ", "is not is !="),
    (At::Test, "", "is ", "is is =="),
    (At::Test, "", "eq ", "eq is =="),
    (At::Test, "", "ne ", "ne is !="),
    (At::Test, "", "lt ", "lt is <"),
    (At::Test, "", "le ", "le is <="),
    (At::Test, "", "gt ", "gt is >"),
    (At::Test, "", "ge ", "ge is >="),
    (At::Test, ")", "=", NOT_COMPARED),
    (At::Test, ")", "!=", NOT_COMPARED),
    (At::Test, ")", "<", NOT_COMPARED),
    (At::Test, ")", ">", NOT_COMPARED),
    (At::Test, "", ")", "no ( stands before this )"),
    (At::Test, "", "+", NO_SUM),
    (At::Test, "", "*", NO_SUM),
    (At::Test, " ", "- ", NO_SUM),
    (At::Test, " ", "/ ", NO_SUM),
    (At::Test, " ", "% ", NO_SUM),
    (At::Test, "'", "s", A_QUOTE),
    (At::Test, "'", "t", A_QUOTE),
];

/// Rows for operators, and for the values behind them.
pub(crate) const OF_VALUES: [Row; 17] = [
    (At::Equal, "=", "~", A_PATTERN),
    (At::Equal, "!", "~", "none of a pattern: !search(@.b,\"x\")"),
    (At::Equal, "!", "in ", NONE_OF),
    (At::Equal, "=", ">", "=> is >="),
    (At::Equal, "=", "<", "=< is <="),
    (At::Equal, "=", "!", "=! is !="),
    (At::Equal, "=", "", "= is =="),
    (At::Equal, "!", "", "not equal is !="),
    (At::Value, "==", "=", "=== is =="),
    (At::Value, "!=", "=", "!== is !="),
    (At::Value, "<", ">", "<> is !="),
    (At::Value, "", "+", "no + before a number: 1"),
    (At::Value, "", "{", "no objects in a query: @.b.c==1"),
    (
        At::Value,
        "",
        "[",
        "no lists in a query: @.b==\"x\" || @.b==\"y\"",
    ),
    (At::Value, "", "/", A_PATTERN),
    (At::Value, "", "`", "a text in quotes: \"x\""),
    (At::Word, "n", "il", "nil is null"),
];

/// Rows for words and functions.
pub(crate) const OF_WORDS: [Row; 26] = [
    (At::Word, "n", "ot ", "not is !"),
    (At::Word, "n", "ot(", "not is !"),
    (At::Word, "", "not(", "not is !"),
    (At::Word, "", "NOT ", "NOT is !"),
    (At::Word, "", "NOT(", "NOT is !"),
    (At::Word, "", "exists(", "what is there: [?@.b]"),
    (At::Word, "", "has(", "what is there: [?@.b]"),
    (At::Word, "", "empty(", "what is empty: length(@.b)==0"),
    (At::Word, "", "len(", "len is length"),
    (At::Word, "", "size(", "size is length"),
    (At::Word, "", "contains(", A_PART),
    (At::Word, "", "in(", ONE_OF),
    (At::Word, "", "startswith(", AT_START),
    (At::Word, "", "starts_with(", AT_START),
    (At::Word, "", "endswith(", AT_END),
    (At::Word, "", "ends_with(", AT_END),
    (At::Word, "", "regex(", A_PATTERN),
    (At::Word, "", "test(", A_PATTERN),
    (At::Word, "", "matches(", A_PATTERN),
    (At::Word, "", "like(", A_PATTERN),
    (At::Word, "", "lower(", EITHER_CASE),
    (At::Word, "", "upper(", EITHER_CASE),
    (At::Word, "", "tolower(", EITHER_CASE),
    (At::Word, "", "toupper(", EITHER_CASE),
    (At::Word, "", "first(", "the first: @.b[0]"),
    (At::Word, "", "last(", "the last: @.b[-1]"),
];

/// Rows for what stands behind a `\` in quotes.
pub(crate) const OF_ESCAPES: [Row; 23] = [
    (At::Escape, "\\", "d", "a digit is [0-9]"),
    (At::Escape, "\\", "D", "what is no digit is [^0-9]"),
    (At::Escape, "\\", "w", "a letter or digit is [0-9A-Za-z_]"),
    (
        At::Escape,
        "\\",
        "W",
        "what is no letter or digit is [^0-9A-Za-z_]",
    ),
    (At::Escape, "\\", "s", "a blank is [ \\t\\n\\r]"),
    (At::Escape, "\\", "S", "what is no blank is [^ \\t\\n\\r]"),
    (At::Escape, "\\", "'", "' stands as it is between \""),
    (At::Escape, "\\", "\"", "\" stands as it is between '"),
    (At::Escape, "\\", "$", "$ stands as it is"),
    (At::Escape, "\\", "x", "by four digits: \\u0041"),
    (At::Escape, "\\", ".", BACKSLASH),
    (At::Escape, "\\", "(", BACKSLASH),
    (At::Escape, "\\", ")", BACKSLASH),
    (At::Escape, "\\", "[", BACKSLASH),
    (At::Escape, "\\", "]", BACKSLASH),
    (At::Escape, "\\", "{", BACKSLASH),
    (At::Escape, "\\", "}", BACKSLASH),
    (At::Escape, "\\", "*", BACKSLASH),
    (At::Escape, "\\", "+", BACKSLASH),
    (At::Escape, "\\", "?", BACKSLASH),
    (At::Escape, "\\", "|", BACKSLASH),
    (At::Escape, "\\", "^", BACKSLASH),
    (At::Escape, "\\", "-", BACKSLASH),
];
