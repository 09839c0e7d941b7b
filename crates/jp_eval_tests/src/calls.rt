//! Calls by themselves: the bounds of slices, and comparisons. The expected values come from the rules of RFC
//! 9535.

use jp_node::{Bounds, slice_bounds};
use jp_value::{Operand, equal, less};

#[test]
fn bounds(rt: HostRuntime) {
    for ((start, end, step, len), (lower, upper, by)) in [
        ((Some(3), Some(0), Some(-2), 5), (0, 3, -2)),
        ((None, None, Some(-1), 5), (-1, 4, -1)),
        ((None, None, Some(0), 5), (0, 5, 0)),
        ((Some(-2), None, None, 5), (3, 5, 1)),
        ((Some(-9), Some(9), None, 5), (0, 5, 1)),
        ((None, None, Some(-1), 0), (-1, -1, -1)),
    ] {
        let bounds = slice_bounds(start, end, step, len);
        assert_eq!(rt;
            bounds,
            Bounds {
                lower,
                upper,
                step: by
            }
        );
    }
}

#[test]
fn comparisons(rt: HostRuntime) {
    assert!(rt; equal(Operand::Nothing, Operand::Nothing));
    assert!(rt; !equal(Operand::Nothing, Operand::Null));
    assert!(rt; equal(Operand::Text("a"), Operand::Text("a")));
    assert!(rt; less(Operand::Whole(1), Operand::Whole(2)));
    assert!(rt; !less(Operand::Whole(2), Operand::Whole(2)));
    assert!(rt; less(Operand::Text("a"), Operand::Text("b")));
    assert!(rt; !less(Operand::Truth(false), Operand::Truth(true)));
}
