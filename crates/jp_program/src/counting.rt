//! The line that tells how many nodes are selected.

ghost use Rattle.std.specs.Prelude.{◌≡◌, option_map, string_bytes, IfOk};
ghost use Rattle.jp_run.specs.Answered.{head_behind};
ghost use Rattle.jp_program.specs.Outcome.{count_line};

use std::alloc::{AllocError, Global};

/// A count and a line feed, behind a name and a tab, if there is one.
///
/// `AllocError` if a growth was refused.
pub(crate) fn count_line(
    alloc: Global,
    name: Option<&str>,
    count: u64,
) -> Result<String, AllocError>
    ensures { IfOk result (λ line. string_bytes line
        ≡ count_line (head_behind (option_map (λ n. n.now) name.entry)) count) }
{
    match name {
        Some(name) => format!(in alloc; "{name}\t{count}\n"),
        None => format!(in alloc; "{count}\n"),
    }
}
