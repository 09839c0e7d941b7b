//! Options of other tools, and what does the same here.

/// What stands in the place of an option of another tool, of `jq`, `grep` or `parallel`; nothing of others.
pub(crate) fn own_way(option: &str) -> Option<&'static str> {
    match option {
        "-r" | "--raw-output" | "--raw" => Some("texts as they are: -o raw"),
        "--compact-output" | "--compact" => Some("the values alone: -o values"),
        "-s" | "--slurp" | "-n" | "--null-input" => {
            Some("documents over any number of lines: --documents")
        }
        "-j" | "--jobs" | "--threads" => Some("threads: --workers N"),
        "-l" | "--files-with-matches" => {
            Some("the names of the files: --with-filename .. | cut -f1 | uniq")
        }
        "-H" => Some("the names of the files in front: --with-filename"),
        "--no-filename" => Some("without the names of the files: .. | cut -f2-"),
        "-z" | "--search-zip" => Some("a compressed file: zcat FILE | jp QUERY"),
        "-Z" | "--null-data" | "--raw-output0" => Some("values ended by U+0000: -0 -o raw"),
        "-f" | "--from-file" => Some("a query out of a file: jp \"$(cat FILE)\""),
        "-v" | "--invert-match" => Some(
            "documents that a filter is not true of: --where '!(FILTER)'",
        ),
        "--arg" => Some("a variable in a query: \"@.a==$(jp --quote \"$x\")\""),
        _ if option == "--quote" || option.starts_with("--quote=") => {
            Some("it stands alone: jp --quote VALUE")
        }
        _ => None,
    }
}

/// The same of the first word that is such an option, of those before a `--`.
pub(crate) fn first_own_way(words: &[&str]) -> Option<&'static str> {
    for word in words {
        if *word == "--" {
            return None;
        }
        if let Some(way) = own_way(word) {
            return Some(way);
        }
    }
    None
}
