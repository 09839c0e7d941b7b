//! A step over one set of characters, and over the copies of one.

ghost use Rattle.std.specs.Prelude.{◌≡◌, ◌+◌, ◌<◌, ◌≤◌, ◌++◌, IfOk, OnOk};
ghost use Rattle.jp_pattern.specs.Profile.{max_size};
ghost use Rattle.jp_automaton.specs.Letters.{letters_of};
ghost use Rattle.jp_pattern.specs.Unrolled.{counted, letter};
ghost use Rattle.jp_automaton.specs.inner.Simulation.{read_if, reads_set, IsAt, IsStep};

use crate::cursor::{Cursor, behind_set, idle_copies};
use crate::exit::{either, may_stop};
use crate::letters::{Letters, has_letter};
use crate::step_input::{Copies, StepInput};
use std::alloc::AllocError;

/// Behind a set of characters; its position is put behind the others where it is read next.
///
/// # Errors
///
/// Memory ran out.
pub(crate) fn step_set(
    set: &Letters,
    input: StepInput<'_>,
    at: Cursor,
    out: &mut Vec<u32>,
) -> Result<Cursor, AllocError>
    requires fits { at.past < max_size }
    requires stands { IsAt input.active.now at.past at.index }
    ensures { IfOk result (λ end. IsStep input.entry.active.now input.entry.c (letter (letters_of set.now)) at
        end out.old.items out.new.items) }
{
    read_set(set, input.c, at, out)?;
    Ok(behind_set(input.active, at))
}

/// Puts down the position of the set, where it is entered and holds the character.
fn read_set(set: &Letters, c: char, at: Cursor, out: &mut Vec<u32>) -> Result<(), AllocError>
    requires fits { at.past < max_size }
    ensures { OnOk result (out.new.items ≡ out.old.items ++ reads_set (letters_of set.now) c at) }
{
    if !at.entered {
        return Ok(());
    }
    if !has_letter(set, c) {
        return Ok(());
    }
    out.push(at.past + 1)?;
    Ok(())
}

/// Behind the copies of `{least,most}` of a set; the character is looked up in it once.
///
/// # Errors
///
/// Memory ran out.
pub(crate) fn step_set_copies(
    set: &Letters,
    input: StepInput<'_>,
    at: Cursor,
    copies: Copies,
    out: &mut Vec<u32>,
) -> Result<Cursor, AllocError>
    requires fits { at.past + copies.most ≤ max_size }
    requires stands { IsAt input.active.now at.past at.index }
    ensures { IfOk result (λ end. IsStep input.entry.active.now input.entry.c (counted copies.least
        copies.most (letter (letters_of set.now))) at end out.old.items out.new.items) }
{
    let has = has_letter(set, input.c);
    let mut here = at;
    let mut left = false;
    let mut i = 0;
    while i < copies.most {
        let idle = idle_copies(input.active, here, 1, copies.most - i);
        if idle > 0 {
            here.past += idle;
            i += idle;
            continue;
        }
        let stop = may_stop(i, copies.least, here.entered);
        left = either(left, stop);
        read_known(has, here, out)?;
        here = behind_set(input.active, here);
        i += 1;
    }
    Ok(here.with_entered(either(left, here.entered)))
}

/// The same, where it is known whether the set holds the character.
fn read_known(has: bool, at: Cursor, out: &mut Vec<u32>) -> Result<(), AllocError>
    requires fits { at.past < max_size }
    ensures { OnOk result (out.new.items ≡ out.old.items ++ read_if has at) }
{
    if !has {
        return Ok(());
    }
    if !at.entered {
        return Ok(());
    }
    out.push(at.past + 1)?;
    Ok(())
}
