use jp_compiled::{CompiledQuery, CompiledSelector};

fn has_filter(query: &CompiledQuery) -> bool {
    for segment in &query.segments {
        for selector in &segment.selectors {
            if let CompiledSelector::Filter(_) = selector {
                return true;
            }
        }
    }
    false
}
