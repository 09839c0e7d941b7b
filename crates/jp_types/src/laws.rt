//! Laws of the definitions, each the contract of a function that does nothing.

ghost use Rattle.std.specs.Prelude.{◌≡◌, true};
ghost use Rattle.jp_tree.specs.Tree.{Text};
ghost use Rattle.jp_number.specs.declared.numbers.Numbers.TheVariants.{Decimals};
ghost use Rattle.jp_types.specs.Numbers.{is_short_in, is_whole};

/// A whole literal of at most 38 digits is within the limits of all numbers.
#[tactic(auto, using(crate::proofs::WholeLiterals::whole_short))]
pub fn whole_literals()
    ensures { (t : Text) → is_whole t ≡ true → is_short_in Decimals t ≡ true }
{}
