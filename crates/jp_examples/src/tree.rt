use jp_tree::{Query, Segment, Selector};

fn names_members_alone(query: &Query) -> bool {
    query.segments.iter().all(|segment: &Segment| match segment.selectors.as_slice() {
        [Selector::Name(_)] => !segment.deep,
        _ => false,
    })
}
