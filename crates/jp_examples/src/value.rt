ghost use Rattle.jp_value.specs.Operands.{HasWholeNumbers};

use jp_value::{Operand, less};

fn is_above_one(value: Operand<'_>) -> bool
    requires { HasWholeNumbers value }
{
    less(Operand::Whole(1), value)
}
