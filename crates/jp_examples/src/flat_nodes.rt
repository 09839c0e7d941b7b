use jp_flat_nodes::{FlatNode, FlatNodes, read_line};
use std::alloc::Global;

/// How many texts stand in a line, names apart, where it is read in one pass.
fn texts_of(alloc: Global, line: &[u8]) -> Option<usize> {
    let mut read = FlatNodes::new(alloc);
    if line.len() > 1_000_000 || !read_line(line, &mut read) {
        return None;
    }
    let texts = read.nodes.iter().filter(|node| matches!(
        node,
        FlatNode::Text(..) | FlatNode::Escaped(..)
    ));
    Some(texts.count())
}
