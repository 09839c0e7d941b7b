use jp_pattern::{PatternFault, read_tree};
use std::alloc::Global;

fn is_refused(alloc: Global, text: &[char]) -> bool {
    match read_tree(alloc, text) {
        Err(PatternFault::NoPattern) => true,
        _ => false,
    }
}
