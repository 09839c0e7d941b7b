//! Numbers, and the order of two by their values.

ghost use Rattle.std.specs.Prelude.{◌≡◌};
ghost use Rattle.jp_number.specs.Number.{whole, written, order, is_equal, is_below, IsShort};
ghost use Rattle.jp_number.specs.View.{number_of};

use crate::number_text::NumberText;
use crate::size::{compare_signed, read_size, whole_size};
use itoa::Buffer;
use std::cmp::Ordering;

// The methods are put in line, so that two whole numbers are compared in place.

/// A number of a JSON text or of a query.
#[derive(Clone, Copy)]
pub enum Number<'a> {
    /// A whole number.
    Whole(i128),
    /// A number by the text that writes it (RFC 8259, 6).
    Written(NumberText<'a>),
}

impl<'a> Number<'a> {
    /// The order of two numbers by their values. It takes no memory.
    #[inline(always)]
    pub fn compare(self, other: Number<'_>) -> Ordering
        ensures { result ≡ order (number_of self.entry) (number_of other.entry) }
    {
        match (self, other) {
            (Number::Whole(left), Number::Whole(right)) => left.cmp(&right),
            (Number::Whole(left), Number::Written(right)) => compare_whole(left, right.text),
            (Number::Written(left), Number::Whole(right)) => compare_whole(
                right, left.text,
            ).reverse(),
            (Number::Written(left), Number::Written(right)) => compare_texts(left.text, right.text),
        }
    }

    /// Whether two numbers have one value, as `1.0` and `1` have.
    #[inline(always)]
    pub fn is_equal(self, other: Number<'_>) -> bool
        ensures { result ≡ is_equal (number_of self.entry) (number_of other.entry) }
    {
        self.compare(other).is_eq()
    }

    /// Whether this number is less than the other.
    #[inline(always)]
    pub fn is_below(self, other: Number<'_>) -> bool
        ensures { result ≡ is_below (number_of self.entry) (number_of other.entry) }
    {
        self.compare(other).is_lt()
    }
}

/// The order of the values of two texts.
fn compare_texts(left: &str, right: &str) -> Ordering
    requires left { IsShort (written left.now) }
    requires right { IsShort (written right.now) }
    ensures { result ≡ order (written left.now) (written right.now) }
{
    let (left_negative, left_size) = read_size(left.as_bytes());
    let (right_negative, right_size) = read_size(right.as_bytes());
    compare_signed(left_negative, &left_size, right_negative, &right_size)
}

/// The order of a whole number and the value of a text.
fn compare_whole(left: i128, right: &str) -> Ordering
    requires { IsShort (written right.now) }
    ensures { result ≡ order (whole left) (written right.now) }
{
    let mut buffer = Buffer::new();
    let left_size = whole_size(buffer.format(left.unsigned_abs()).as_bytes());
    let (right_negative, right_size) = read_size(right.as_bytes());
    compare_signed(left < 0, &left_size, right_negative, &right_size)
}
