use jp_automaton::Pattern;
use std::alloc::{AllocError, Global};

fn has_match_in_front(alloc: Global, pattern: &Pattern, text: &str) -> Result<bool, AllocError> {
    let mut terms = pattern.start(alloc)?;
    for c in text.chars() {
        if terms.accepts() {
            return Ok(true);
        }
        terms.step(c, false)?;
    }
    Ok(terms.accepts())
}
