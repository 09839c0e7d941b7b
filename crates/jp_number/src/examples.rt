//! Worked examples of the definitions.

ghost use Rattle.std.specs.Prelude.{◌≡◌, codes, pos, negsuc, true, false};
ghost use Rattle.std.specs.declared.cmp.Ordering.TheVariants.{Less, Equal, Greater};
ghost use Rattle.jp_number.specs.Number.{whole, written, top, bottom, order, is_equal, is_below, number_text};

/// The value of a text as a fraction.
#[tactic(auto, unfolding(crate::proofs::OnLiterals::numbers_on_literals))]
fn values()
    ensures fraction { (top (written (codes "-12.50")) ≡ negsuc 1249)
        × (bottom (written (codes "-12.50")) ≡ 100) }
    ensures exponent { (top (written (codes "1E+2")) ≡ pos 100) × (bottom (written (codes "1E+2")) ≡ 1) }
    ensures negative_exponent { (top (written (codes "1.2e-4")) ≡ pos 12)
        × (bottom (written (codes "1.2e-4")) ≡ 100000) }
    ensures minus_zero { (top (written (codes "-0")) ≡ pos 0) × (bottom (written (codes "-0")) ≡ 1) }
    ensures whole_number { (top (whole (negsuc 6)) ≡ negsuc 6) × (bottom (whole (negsuc 6)) ≡ 1) }
{}

/// Texts of one value.
#[tactic(auto, unfolding(crate::proofs::OnLiterals::numbers_on_literals))]
fn equal_numbers()
    ensures fraction_of_zeros { order (written (codes "1.0")) (whole (pos 1)) ≡ Equal }
    ensures exponent { order (written (codes "1E+2")) (written (codes "100")) ≡ Equal }
    ensures minus_zero { order (written (codes "-0")) (written (codes "0.0")) ≡ Equal }
    ensures zeros_behind { order (written (codes "9.90")) (written (codes "9.9")) ≡ Equal }
    ensures zeros_before { order (written (codes "0.00012")) (written (codes "1.2e-4")) ≡ Equal }
    ensures above_64_bits { order (written (codes "18446744073709551616"))
        (written (codes "1.8446744073709551616e19")) ≡ Equal }
{}

/// Texts of two values, which a float may not tell apart.
#[tactic(auto, unfolding(crate::proofs::OnLiterals::numbers_on_literals))]
fn different_numbers()
    ensures tenths { order (written (codes "0.1")) (written (codes "0.11")) ≡ Less }
    ensures twenty_digits { order (written (codes "0.10000000000000000001")) (written (codes "0.1"))
        ≡ Greater }
    ensures negative { order (written (codes "-2.5e1")) (written (codes "-24.999")) ≡ Less }
    ensures tiny { order (written (codes "1e-400")) (written (codes "1e-399")) ≡ Less }
    ensures above_minus_zero { order (written (codes "-0")) (written (codes "1e-9")) ≡ Less }
    ensures beside_a_whole_number { order (whole (pos 10)) (written (codes "9.99")) ≡ Greater }
{}

/// Equality, order and text of numbers of both kinds.
#[tactic(auto, unfolding(crate::proofs::OnLiterals::numbers_on_literals))]
fn equal_below_text()
    ensures same { is_equal (whole (negsuc 6)) (whole (negsuc 6)) ≡ true }
    ensures other_sign { is_equal (whole (negsuc 6)) (whole (pos 7)) ≡ false }
    ensures below { is_below (whole (negsuc 6)) (whole (negsuc 5)) ≡ true }
    ensures not_below_itself { is_below (whole (pos 7)) (whole (pos 7)) ≡ false }
    ensures text { number_text (whole (pos 70)) ≡ codes "70" }
    ensures text_below_zero { number_text (whole (negsuc 6)) ≡ codes "-7" }
    ensures same_value { is_equal (whole (pos 1)) (written (codes "1.0")) ≡ true }
    ensures other_value { is_equal (written (codes "0.10")) (written (codes "0.11")) ≡ false }
    ensures below_a_whole_number { is_below (written (codes "9.99")) (whole (pos 10)) ≡ true }
    ensures text_as_written { number_text (written (codes "9.90")) ≡ codes "9.90" }
{}
