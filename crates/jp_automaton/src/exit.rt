//! Whether the end of an expression is reached without reading: its start is reached and it is nullable, or
//! one of its last positions is active.

ghost use Rattle.std.specs.Prelude.{◌≡◌, ◌+◌, ◌<◌, ◌≤◌, ◌&&◌, ◌||◌, nat_le, map, IsTrue};
ghost use Rattle.jp_automaton.specs.Expressions.{all_sized, meaning, branches_before, unrolled_in};
ghost use Rattle.jp_automaton.specs.Expressions.{unrolled_in_turn};
ghost use Rattle.jp_automaton.specs.Expressions.{unrolled_repeat};
ghost use Rattle.jp_pattern.specs.Profile.{max_size};
ghost use Rattle.jp_pattern.specs.Unrolled.{counted, counted_on, letters, nothing};
ghost use Rattle.jp_automaton.specs.inner.Simulation.{IsAt, IsWalk, IsWalkBefore};

use crate::cursor::{Cursor, behind_set, idle_copies, passed};
use crate::expressions::Expression;

/// Whether the least number of copies is done where the walk has reached the next.
pub(crate) fn may_stop(done: u32, least: u32, entered: bool) -> bool
    ensures { result ≡ (nat_le least done && entered) }
{
    least <= done && entered
}

/// `||` that looks at both.
pub(crate) fn either(a: bool, b: bool) -> bool
    ensures { result ≡ (a || b) }
{
    a || b
}

/// The cursor behind the expression; it is entered where the end of the expression is reached.
#[cycle(exit)]
pub(crate) fn exit(expression: &Expression, active: &[u32], at: Cursor) -> Cursor
    requires sized { IsTrue (meaning expression.now).is_sized }
    requires fits { at.past + letters (unrolled_in expression.now) ≤ max_size }
    requires stands { IsAt active.now at.past at.index }
    ensures { IsWalk active.now (unrolled_in expression.now) at result }
{
    if let Some(behind) = passed(active, at, expression.size()) {
        return behind;
    }
    match expression {
        Expression::Set(_) => behind_set(active, at),
        Expression::Group { sub, .. } => exit(sub, active, at),
        Expression::Pieces { size, pieces } => exit_in_turn(pieces, active, at, at.past + *size),
        Expression::Branches { before, last, .. } => {
            let others = exit_before(before, active, at);
            let behind = exit(last, active, others.with_entered(at.entered));
            behind.with_entered(either(others.entered, behind.entered))
        }
        Expression::Repeat {
            least,
            most,
            atom,
            ..
        } => exit_repeated(atom, active, at, *least, *most),
        Expression::Plus { atom, .. } => exit(atom, active, at),
    }
}

/// Behind the pieces, which end at this number of positions.
#[cycle(exit)]
fn exit_in_turn(pieces: &[Expression], active: &[u32], at: Cursor, end: u32) -> Cursor
    requires sized { IsTrue (all_sized (map meaning pieces.now)) }
    requires ends { end ≡ at.past + letters (unrolled_in_turn pieces.now) }
    requires fits { end ≤ max_size }
    requires stands { IsAt active.now at.past at.index }
    ensures { IsWalk active.now (unrolled_in_turn pieces.now) at result }
{
    let mut here = at;
    for piece in pieces {
        if let Some(behind) = passed(active, here, end - here.past) {
            return behind;
        }
        here = exit(piece, active, here);
    }
    here
}

/// Behind branches that others follow; whether the end of one of them is reached.
#[cycle(exit)]
fn exit_before(branches: &[Expression], active: &[u32], at: Cursor) -> Cursor
    requires sized { IsTrue (all_sized (map meaning branches.now)) }
    requires fits { at.past + letters (branches_before branches.now nothing) ≤ max_size }
    requires stands { IsAt active.now at.past at.index }
    ensures { IsWalkBefore active.now branches.now at result }
{
    let mut others = at.with_entered(false);
    for branch in branches {
        let behind = exit(branch, active, others.with_entered(at.entered));
        others = behind.with_entered(either(others.entered, behind.entered));
    }
    others
}

/// Behind the copies of a repetition.
#[cycle(exit)]
fn exit_repeated(
    atom: &Expression,
    active: &[u32],
    at: Cursor,
    least: u32,
    most: Option<u32>,
) -> Cursor
    requires sized { IsTrue (meaning atom.now).is_sized }
    requires some { 0 < letters (unrolled_in atom.now) }
    requires fits { at.past + letters (unrolled_repeat least most atom.now) ≤ max_size }
    requires stands { IsAt active.now at.past at.index }
    ensures { IsWalk active.now (unrolled_repeat least most atom.now) at result }
{
    match most {
        Some(most) => exit_counted(atom, active, at, least, most),
        None => exit_counted_on(atom, active, at, least),
    }
}

/// Behind the copies of `{least,most}`.
#[cycle(exit)]
fn exit_counted(atom: &Expression, active: &[u32], at: Cursor, least: u32, most: u32) -> Cursor
    requires sized { IsTrue (meaning atom.now).is_sized }
    requires some { 0 < letters (unrolled_in atom.now) }
    requires fits { at.past + letters (counted least most (unrolled_in atom.now)) ≤ max_size }
    requires stands { IsAt active.now at.past at.index }
    ensures { IsWalk active.now (counted least most (unrolled_in atom.now)) at result }
{
    let size = atom.size();
    let mut here = at;
    let mut left = false;
    let mut i = 0;
    while i < most {
        let idle = idle_copies(active, here, size, most - i);
        if idle > 0 {
            here.past += idle * size;
            i += idle;
            continue;
        }
        let stop = may_stop(i, least, here.entered);
        left = either(left, stop);
        here = exit(atom, active, here);
        i += 1;
    }
    here.with_entered(either(left, here.entered))
}

/// Behind the copies of `{least,}`: so many, and one more that may be left out or repeated.
#[cycle(exit)]
fn exit_counted_on(atom: &Expression, active: &[u32], at: Cursor, least: u32) -> Cursor
    requires sized { IsTrue (meaning atom.now).is_sized }
    requires some { 0 < letters (unrolled_in atom.now) }
    requires fits { at.past + letters (counted_on least (unrolled_in atom.now)) ≤ max_size }
    requires stands { IsAt active.now at.past at.index }
    ensures { IsWalk active.now (counted_on least (unrolled_in atom.now)) at result }
{
    let here = exit_counted(atom, active, at, least, least);
    let behind = exit(atom, active, here);
    behind.with_entered(either(here.entered, behind.entered))
}
