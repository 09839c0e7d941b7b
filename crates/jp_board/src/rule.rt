//! The rule that the table of a board keeps, and what each kind of step does to a view.

use crate::view::View;
use atomic_table::{Join, Play, Split, TableRule};

/// Events have led to the state of the table. Its key is the number of pieces and that of the seats.
pub(crate) struct BoardRule;

impl TableRule<(), View, (u64, u64)> for BoardRule {
    ghost use Rattle.jp_board.specs.Rule.{Holds};
    ghost use Rattle.jp_board.specs.Views.{first_view};

    ghost holds = { Holds };

    ghost first = { first_view };
}

/// One is added to the next piece.
pub(crate) struct Claim;

impl Play<(), View> for Claim {
    ghost use Rattle.jp_board.specs.Steps.{Claims};

    ghost then = { Claims };
}

/// The mark is lowered to a piece.
pub(crate) struct Report;

impl Play<(), View> for Report {
    ghost use Rattle.jp_board.specs.Steps.{Reports};

    ghost then = { Reports };
}

/// The mark is read.
pub(crate) struct Look;

impl Play<(), View> for Look {
    ghost use Rattle.jp_board.specs.Steps.{Looks};

    ghost then = { Looks };
}

/// One seat is cut off a seat that stands for several.
pub(crate) struct Deal;

impl Split<View> for Deal {
    ghost use Rattle.jp_board.specs.Views.{less_one, one_of};

    ghost left = { less_one };

    ghost right = { one_of };
}

/// One seat takes over what another did.
pub(crate) struct Gather;

impl Join<View> for Gather {
    ghost use Rattle.jp_board.specs.Views.{joined, spent};

    ghost both = { joined };

    ghost spent = { spent };
}
