//! The bounds of a slice, and its indexes one after another (RFC 9535, 2.3.4).

ghost use Rattle.std.specs.Prelude.{◌≡◌, ◌<ℤ◌, pos, ℕ, unwrap_or};
ghost use Rattle.std.specs.Option.{ForSome};
ghost use Rattle.jp_node.specs.BoundsView.{bounds_value, IsPosition};
ghost use Rattle.jp_node.specs.Places.{AreWithin, IfPlace, IsPlace, from_place, later, max_place};
ghost use Rattle.jp_node.specs.Slice as spec;

/// The bounds of a slice within an array: from `lower` up, or from `upper` down, by `step`.
#[derive(Clone, Copy, Debug, PartialEq, Eq)]
pub struct Bounds {
    /// The lower bound, which a falling slice leaves out.
    pub lower: i64,
    /// The upper bound, which a rising slice leaves out.
    pub upper: i64,
    /// The distance between two items.
    pub step: i64,
}

/// A negative number counts from the end.
fn normalized(number: i64, len: u32) -> i64
    requires { IsPosition number }
    ensures { result ≡ spec.normalized number len }
{
    if number < 0 {
        i64::from(len) + number
    } else {
        number
    }
}

/// The number from `low` to `high` that is nearest.
fn clamped(low: i64, high: i64, number: i64) -> i64
    ensures { result ≡ spec.clamped low high number }
{
    if number < low {
        low
    } else if high < number {
        high
    } else {
        number
    }
}

/// A bound that is written or left out.
fn bound(number: Option<i64>, default: i64, low: i64, high: i64, len: u32) -> i64
    requires number { ForSome number IsPosition }
    requires default { IsPosition default }
    ensures { result ≡ spec.clamped low high (spec.normalized (unwrap_or number default) len) }
{
    clamped(low, high, normalized(number.unwrap_or(default), len))
}

/// The bounds of a slice of an array with `len` items (RFC 9535, 2.3.4.2.2).
///
/// Each number is from -9007199254740991 to 9007199254740991.
pub fn slice_bounds(start: Option<i64>, end: Option<i64>, step: Option<i64>, len: u32) -> Bounds
    requires start { ForSome start IsPosition }
    requires end { ForSome end IsPosition }
    requires step { ForSome step IsPosition }
    ensures { bounds_value result ≡ spec.slice_bounds start end step len }
{
    let step = step.unwrap_or(1);
    let last = i64::from(len);
    if step < 0 {
        let lower = bound(end, -last - 1, -1, last - 1, len);
        let upper = bound(start, last - 1, -1, last - 1, len);
        Bounds { lower, upper, step }
    } else {
        let lower = bound(start, 0, 0, last, len);
        let upper = bound(end, last, 0, last, len);
        Bounds { lower, upper, step }
    }
}

/// The first index of a slice with a positive step.
fn first_rising(bounds: Bounds) -> Option<u32>
    requires within { AreWithin (bounds_value bounds) max_place }
    requires rising { pos 0 <ℤ bounds.step }
    ensures indexes { (len : ℕ) → AreWithin (bounds_value bounds) len
        → from_place (bounds_value bounds) len result ≡ spec.slice_indexes (bounds_value bounds) len }
    ensures place { IfPlace (bounds_value bounds) result }
{
    if bounds.lower < bounds.upper {
        Some(bounds.lower as u32)
    } else {
        None
    }
}

/// The first index of a slice with a negative step.
fn first_falling(bounds: Bounds) -> Option<u32>
    requires within { AreWithin (bounds_value bounds) max_place }
    requires falling { bounds.step <ℤ pos 0 }
    ensures indexes { (len : ℕ) → AreWithin (bounds_value bounds) len
        → from_place (bounds_value bounds) len result ≡ spec.slice_indexes (bounds_value bounds) len }
    ensures place { IfPlace (bounds_value bounds) result }
{
    if bounds.lower < bounds.upper {
        Some(bounds.upper as u32)
    } else {
        None
    }
}

/// The first index of a slice.
pub(crate) fn first_place(bounds: Bounds) -> Option<u32>
    requires { AreWithin (bounds_value bounds) max_place }
    ensures indexes { (len : ℕ) → AreWithin (bounds_value bounds) len
        → from_place (bounds_value bounds) len result ≡ spec.slice_indexes (bounds_value bounds) len }
    ensures place { IfPlace (bounds_value bounds) result }
{
    if bounds.step > 0 {
        first_rising(bounds)
    } else if bounds.step < 0 {
        first_falling(bounds)
    } else {
        None
    }
}

/// The index behind this one in a slice with a positive step.
fn after_rising(bounds: Bounds, place: u32) -> Option<u32>
    requires within { AreWithin (bounds_value bounds) max_place }
    requires rising { pos 0 <ℤ bounds.step }
    requires place { IsPlace (bounds_value bounds) place }
    ensures indexes { (len : ℕ) → AreWithin (bounds_value bounds) len
        → from_place (bounds_value bounds) len result ≡ later (bounds_value bounds) len place }
    ensures place { IfPlace (bounds_value bounds) result }
{
    let next = i64::from(place) + bounds.step;
    if next < bounds.upper {
        Some(next as u32)
    } else {
        None
    }
}

/// The index behind this one in a slice with a negative step.
fn after_falling(bounds: Bounds, place: u32) -> Option<u32>
    requires within { AreWithin (bounds_value bounds) max_place }
    requires falling { bounds.step <ℤ pos 0 }
    requires place { IsPlace (bounds_value bounds) place }
    ensures indexes { (len : ℕ) → AreWithin (bounds_value bounds) len
        → from_place (bounds_value bounds) len result ≡ later (bounds_value bounds) len place }
    ensures place { IfPlace (bounds_value bounds) result }
{
    let next = i64::from(place) + bounds.step;
    if bounds.lower < next {
        Some(next as u32)
    } else {
        None
    }
}

/// The index behind this one.
pub(crate) fn place_after(bounds: Bounds, place: u32) -> Option<u32>
    requires bounds { AreWithin (bounds_value bounds) max_place }
    requires place { IsPlace (bounds_value bounds) place }
    ensures indexes { (len : ℕ) → AreWithin (bounds_value bounds) len
        → from_place (bounds_value bounds) len result ≡ later (bounds_value bounds) len place }
    ensures place { IfPlace (bounds_value bounds) result }
{
    if bounds.step > 0 {
        after_rising(bounds, place)
    } else if bounds.step < 0 {
        after_falling(bounds, place)
    } else {
        None
    }
}
