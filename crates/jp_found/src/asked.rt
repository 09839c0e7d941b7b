//! What a query asks of the values of its `$` queries, so that it is found once a document and not at each
//! node. No clause rests on it: what is not kept is found where it is asked for.

use jp_compiled::{
    CompiledLogical, CompiledQuery, CompiledSegment, CompiledSelector, Giver, Nodes, RootPart,
};

/// What is asked of the values of `$` queries.
#[derive(Clone, Copy)]
pub struct RootUse {
    /// The length of one.
    pub length: bool,
    /// Whether texts match one, taken as a pattern.
    pub pattern: bool,
    /// Whether one is compared with values of nodes.
    pub compared: bool,
}

impl RootUse {
    /// Nothing.
    pub const NOTHING: RootUse = RootUse {
        length: false,
        pattern: false,
        compared: false,
    };
}

/// What a query asks.
pub fn asked_by(query: &CompiledQuery) -> RootUse {
    let mut asked = RootUse::NOTHING;
    in_segments(query.segments.as_slice(), &mut asked);
    for part in &query.roots {
        match part {
            RootPart::Query(query) => in_segments(query.segments.as_slice(), &mut asked),
            RootPart::Test(test) => in_logical(test, &mut asked),
        }
    }
    asked
}

#[cycle(asked)]
fn in_segments(segments: &[CompiledSegment], asked: &mut RootUse) {
    for segment in segments {
        in_selectors(segment.selectors.as_slice(), asked);
    }
}

#[cycle(asked)]
fn in_selectors(selectors: &[CompiledSelector], asked: &mut RootUse) {
    for selector in selectors {
        if let CompiledSelector::Filter(test) = selector {
            in_logical(test, asked);
        }
    }
}

#[cycle(asked)]
fn in_logical(test: &CompiledLogical, asked: &mut RootUse) {
    match test {
        CompiledLogical::Any(parts) => in_parts(parts.as_slice(), asked),
        CompiledLogical::All(parts) => in_parts(parts.as_slice(), asked),
        CompiledLogical::Not(part) => in_logical(part, asked),
        CompiledLogical::Compare(left, _, right) => {
            asked.compared = asked.compared || is_root_beside_node(left, right);
            in_value(left, asked);
            in_value(right, asked);
        }
        CompiledLogical::Test(nodes) => in_nodes(nodes, asked),
        CompiledLogical::Match(text, pattern) => {
            asked.pattern = asked.pattern || is_root(pattern);
            in_value(text, asked);
            in_value(pattern, asked);
        }
        CompiledLogical::MatchRead(text, _) => in_value(text, asked),
        CompiledLogical::Search(text, pattern) => {
            asked.pattern = asked.pattern || is_root(pattern);
            in_value(text, asked);
            in_value(pattern, asked);
        }
        CompiledLogical::SearchRead(text, _) => in_value(text, asked),
        CompiledLogical::Xor(_, left, _, right) => {
            in_logical(left, asked);
            in_logical(right, asked);
        }
        // It stands in the list, which is gone over by itself.
        CompiledLogical::Once(_) => {}
    }
}

#[cycle(asked)]
fn in_parts(parts: &[CompiledLogical], asked: &mut RootUse) {
    for part in parts {
        in_logical(part, asked);
    }
}

#[cycle(asked)]
fn in_value(value: &Giver, asked: &mut RootUse) {
    match value {
        Giver::Constant(_) => {}
        Giver::Length(of) => {
            asked.length = asked.length || is_root(of);
            in_value(of, asked);
        }
        Giver::Single(nodes) => in_nodes(nodes, asked),
        Giver::Count(nodes) => in_nodes(nodes, asked),
        Giver::Only(nodes) => in_nodes(nodes, asked),
    }
}

#[cycle(asked)]
fn in_nodes(nodes: &Nodes, asked: &mut RootUse) {
    match nodes {
        Nodes::Here(segments) => in_segments(segments.as_slice(), asked),
        Nodes::Root(_) => {}
        Nodes::Distinct(nodes) => in_nodes(nodes, asked),
    }
}

/// Whether the value is that of a `$` query.
fn is_root(value: &Giver) -> bool {
    match value {
        Giver::Single(Nodes::Root(_)) => true,
        Giver::Only(Nodes::Root(_)) => true,
        _ => false,
    }
}

/// Whether one of the two is the value of a `$` query, and the other that of a node.
fn is_root_beside_node(left: &Giver, right: &Giver) -> bool {
    (is_root(left) && is_of_node(right)) || (is_of_node(left) && is_root(right))
}

/// Whether the value is that of a node, and not of the document alone.
fn is_of_node(value: &Giver) -> bool {
    match value {
        Giver::Single(_) => !is_root(value),
        Giver::Only(_) => !is_root(value),
        _ => false,
    }
}
