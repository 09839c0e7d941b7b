//! Sizes of what is copied at each node.

use jp_node::{Items, Kind, Members};
use std::mem::size_of;

/// What a value is, where no number is kept by its text.
enum WholeKind<'v> {
    Null,
    Truth(bool),
    Whole(i128),
    Text(&'v str),
    Array(Items<'v>),
    Object(Members<'v>),
}

#[test]
fn numbers_by_their_texts_make_no_kind_larger(rt: HostRuntime) {
    assert_eq!(rt; size_of::<Kind<'static>>(), size_of::<WholeKind<'static>>());
}
