//! Laws of the order, each proved for every number.

ghost use Rattle.std.specs.Prelude.{◌≡◌, ◌↔◌, ℤ, FitsSigned, IsTrue, int_lt};
ghost use Rattle.std.specs.Cmp.{IsTotalOrder, IsEquivalence};
ghost use Rattle.std.specs.Fmt.{signed_decimal};
ghost use Rattle.std.specs.Int.{w128};
ghost use Rattle.std.specs.Ordering.{int_cmp, int_eq};
ghost use Rattle.std.specs.declared.cmp.Ordering.TheVariants.{Equal};
ghost use Rattle.jp_number.specs.Number.{Number, whole, written, order, is_equal, is_below, IsShort};
ghost use Rattle.jp_number.specs.Number.{is_short};

/// The order is total, where numbers of one value count as one: the other way round it is the opposite, what
/// is below what is below is below, and numbers of one value stand alike to all others.
#[tactic(auto, using(crate::proofs::Order::order_total))]
pub fn total_order()
    ensures { IsTotalOrder order }
{}

/// To have one value is an equivalence.
#[tactic(auto, using(crate::proofs::Order::equality))]
pub fn equality()
    ensures { IsEquivalence is_equal }
{}

/// On whole numbers the order is that of ℤ, and so are being equal and being below.
pub fn whole_numbers()
    ensures order { (x y : ℤ) → order (whole x) (whole y) ≡ int_cmp x y }
    ensures equal { (x y : ℤ) → is_equal (whole x) (whole y) ≡ int_eq x y }
    ensures below { (x y : ℤ) → is_below (whole x) (whole y) ≡ int_lt x y }
{}

/// A whole number of 128 bits has the value of its own text, which is within the limits.
#[tactic(auto, using(crate::proofs::Texts::own_value, crate::proofs::Texts::own_length))]
pub fn own_text()
    ensures value { (z : ℤ) → FitsSigned w128 z → order (whole z) (written (signed_decimal z)) ≡ Equal }
    ensures short { (z : ℤ) → FitsSigned w128 z → IsShort (written (signed_decimal z)) }
{}

/// The test of the limits says what they are.
#[tactic(auto, using(crate::proofs::Limits::short_by_test))]
pub fn limits()
    ensures { (n : Number) → IsTrue (is_short n) ↔ IsShort n }
{}
