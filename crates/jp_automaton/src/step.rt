//! A step of the simulation: which positions a character leads to, from the start of an expression where that
//! is reached, and from its active positions. A step goes over the tree once.

ghost use Rattle.std.specs.Prelude.{◌≡◌, ◌+◌, ◌<◌, ◌≤◌, ◌||◌, false, map, IfOk, IsTrue};
ghost use Rattle.jp_automaton.specs.Expressions.{all_sized, meaning, branches_before, unrolled_in};
ghost use Rattle.jp_automaton.specs.Expressions.{unrolled_in_turn};
ghost use Rattle.jp_automaton.specs.Expressions.{unrolled_repeat};
ghost use Rattle.jp_pattern.specs.Profile.{max_size};
ghost use Rattle.jp_pattern.specs.Unrolled.{counted, counted_on, letters, nothing, plus};
ghost use Rattle.jp_automaton.specs.inner.Simulation.{is_elem, exits, IsAt, IsStep, IsStepBefore};

use crate::cursor::{Cursor, behind_set, idle_copies, passed};
use crate::exit::{either, exit, may_stop};
use crate::expressions::Expression;
use crate::step_input::{Copies, StepInput};
use crate::step_sets::{step_set, step_set_copies};
use std::alloc::AllocError;

/// The cursor behind the expression; the positions of the expression that are read next are put behind the
/// others.
///
/// # Errors
///
/// Memory ran out.
#[cycle(step)]
pub(crate) fn step(
    expression: &Expression,
    input: StepInput<'_>,
    at: Cursor,
    out: &mut Vec<u32>,
) -> Result<Cursor, AllocError>
    requires sized { IsTrue (meaning expression.now).is_sized }
    requires fits { at.past + letters (unrolled_in expression.now) ≤ max_size }
    requires stands { IsAt input.active.now at.past at.index }
    ensures { IfOk result (λ end. IsStep input.entry.active.now input.entry.c (unrolled_in expression.now) at
        end out.old.items out.new.items) }
{
    if let Some(behind) = passed(input.active, at, expression.size()) {
        return Ok(behind);
    }
    match expression {
        Expression::Set(set) => Ok(step_set(set, input, at, out)?),
        Expression::Group { sub, .. } => Ok(step(sub, input, at, out)?),
        Expression::Pieces { size, pieces } => {
            let end = at.past + *size;
            Ok(step_in_turn(pieces, input, at, end, out)?)
        }
        Expression::Branches { before, last, .. } => {
            let others = step_before(before, input, at, out)?;
            let behind = step(last, input, others.with_entered(at.entered), out)?;
            Ok(behind.with_entered(either(others.entered, behind.entered)))
        }
        Expression::Repeat {
            least,
            most,
            atom,
            ..
        } => Ok(step_repeated(atom, input, at, *least, *most, out)?),
        Expression::Plus { atom, .. } => Ok(step_plus(atom, input, at, out)?),
    }
}

/// Behind the pieces, which end at this number of positions.
#[cycle(step)]
fn step_in_turn(
    pieces: &[Expression],
    input: StepInput<'_>,
    at: Cursor,
    end: u32,
    out: &mut Vec<u32>,
) -> Result<Cursor, AllocError>
    requires sized { IsTrue (all_sized (map meaning pieces.now)) }
    requires ends { end ≡ at.past + letters (unrolled_in_turn pieces.now) }
    requires fits { end ≤ max_size }
    requires stands { IsAt input.active.now at.past at.index }
    ensures { IfOk result (λ end. IsStep input.entry.active.now input.entry.c (unrolled_in_turn pieces.now)
        at end out.old.items out.new.items) }
{
    let mut here = at;
    for piece in pieces {
        if let Some(behind) = passed(input.active, here, end - here.past) {
            return Ok(behind);
        }
        here = step(piece, input, here, out)?;
    }
    Ok(here)
}

/// Behind branches that others follow; whether the end of one of them is reached.
#[cycle(step)]
fn step_before(
    branches: &[Expression],
    input: StepInput<'_>,
    at: Cursor,
    out: &mut Vec<u32>,
) -> Result<Cursor, AllocError>
    requires sized { IsTrue (all_sized (map meaning branches.now)) }
    requires fits { at.past + letters (branches_before branches.now nothing) ≤ max_size }
    requires stands { IsAt input.active.now at.past at.index }
    ensures { IfOk result (λ end. IsStepBefore input.entry.active.now input.entry.c branches.now at end
        out.old.items out.new.items) }
{
    let mut others = at.with_entered(false);
    for branch in branches {
        let behind = step(branch, input, others.with_entered(at.entered), out)?;
        others = behind.with_entered(either(others.entered, behind.entered));
    }
    Ok(others)
}

/// Behind the copies of a repetition.
#[cycle(step)]
fn step_repeated(
    atom: &Expression,
    input: StepInput<'_>,
    at: Cursor,
    least: u32,
    most: Option<u32>,
    out: &mut Vec<u32>,
) -> Result<Cursor, AllocError>
    requires sized { IsTrue (meaning atom.now).is_sized }
    requires some { 0 < letters (unrolled_in atom.now) }
    requires fits { at.past + letters (unrolled_repeat least most atom.now) ≤ max_size }
    requires stands { IsAt input.active.now at.past at.index }
    ensures { IfOk result (λ end. IsStep input.entry.active.now input.entry.c (unrolled_repeat least most
        atom.now) at end out.old.items out.new.items) }
{
    let Some(most) = most else {
        return Ok(step_counted_on(atom, input, at, least, out)?);
    };
    match atom {
        Expression::Set(set) => Ok(step_set_copies(set, input, at, Copies { least, most }, out)?),
        _ => Ok(step_counted(atom, input, at, Copies { least, most }, out)?),
    }
}

/// Behind the copies of `{least,most}`.
#[cycle(step)]
fn step_counted(
    atom: &Expression,
    input: StepInput<'_>,
    at: Cursor,
    copies: Copies,
    out: &mut Vec<u32>,
) -> Result<Cursor, AllocError>
    requires sized { IsTrue (meaning atom.now).is_sized }
    requires some { 0 < letters (unrolled_in atom.now) }
    requires fits { at.past + letters (counted copies.least copies.most (unrolled_in atom.now)) ≤ max_size }
    requires stands { IsAt input.active.now at.past at.index }
    ensures { IfOk result (λ end. IsStep input.entry.active.now input.entry.c (counted copies.least
        copies.most (unrolled_in atom.now)) at end out.old.items out.new.items) }
{
    let size = atom.size();
    let mut here = at;
    let mut left = false;
    let mut i = 0;
    while i < copies.most {
        let idle = idle_copies(input.active, here, size, copies.most - i);
        if idle > 0 {
            here.past += idle * size;
            i += idle;
            continue;
        }
        let stop = may_stop(i, copies.least, here.entered);
        left = either(left, stop);
        here = step(atom, input, here, out)?;
        i += 1;
    }
    Ok(here.with_entered(either(left, here.entered)))
}

/// Behind the copies of `{least,}`: so many, and one more that may be left out or repeated.
#[cycle(step)]
fn step_counted_on(
    atom: &Expression,
    input: StepInput<'_>,
    at: Cursor,
    least: u32,
    out: &mut Vec<u32>,
) -> Result<Cursor, AllocError>
    requires sized { IsTrue (meaning atom.now).is_sized }
    requires some { 0 < letters (unrolled_in atom.now) }
    requires fits { at.past + letters (counted_on least (unrolled_in atom.now)) ≤ max_size }
    requires stands { IsAt input.active.now at.past at.index }
    ensures { IfOk result (λ end. IsStep input.entry.active.now input.entry.c (counted_on least (unrolled_in
        atom.now)) at end out.old.items out.new.items) }
{
    let copies = Copies { least, most: least };
    let here = step_counted(atom, input, at, copies, out)?;
    let behind = step_plus(atom, input, here, out)?;
    Ok(behind.with_entered(either(here.entered, behind.entered)))
}

/// Behind a copy that may be repeated: its start is reached again where its end is.
#[cycle(step)]
fn step_plus(
    atom: &Expression,
    input: StepInput<'_>,
    at: Cursor,
    out: &mut Vec<u32>,
) -> Result<Cursor, AllocError>
    requires sized { IsTrue (meaning atom.now).is_sized }
    requires fits { at.past + letters (unrolled_in atom.now) ≤ max_size }
    requires stands { IsAt input.active.now at.past at.index }
    ensures { IfOk result (λ end. IsStep input.entry.active.now input.entry.c (plus (unrolled_in atom.now))
        at end out.old.items out.new.items) }
{
    let from = at.with_entered(is_entered_again(atom, input.active, at));
    Ok(step(atom, input, from, out)?)
}

/// Whether the start of a copy that may be repeated is reached.
fn is_entered_again(atom: &Expression, active: &[u32], at: Cursor) -> bool
    requires sized { IsTrue (meaning atom.now).is_sized }
    requires fits { at.past + letters (unrolled_in atom.now) ≤ max_size }
    requires stands { IsAt active.now at.past at.index }
    ensures { result ≡ (at.entered || exits (is_elem active.now) (unrolled_in atom.now) at.past false) }
{
    if at.entered {
        return true;
    }
    exit(atom, active, at).entered
}
