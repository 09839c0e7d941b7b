//! What is left to read of a pattern: the state of the simulation of its position automaton.

ghost use Rattle.std.specs.Prelude.{◌≡◌, ◌+◌, ◌≤◌, ◌↔◌, [], ◌∷◌, ◌++◌, IfOk, IsTrue, OnErr, OnOk, length};
ghost use Rattle.std.specs.List.Sorted.{IsStrictlyIncreasing};
ghost use Rattle.jp_automaton.specs.Held.{pattern_of};
ghost use Rattle.jp_pattern.specs.Profile.{size};
ghost use Rattle.jp_pattern.specs.Unrolled.{unrolled};
ghost use Rattle.jp_automaton.specs.inner.Simulation.{step, is_elem, exits, Rises, Rises-prop};

use crate::cursor::Cursor;
use crate::exit::exit;
use crate::pattern::Pattern;
use crate::step::step;
use crate::step_input::StepInput;
use std::alloc::{AllocError, Global};
use std::mem;

/// The texts that are left to read of a pattern, as a list of positions, no two the same (RFC 9485, 4). A
/// position is a number from 0 to the unrolled size: at 0 nothing was read yet, and at k the k-th atom of
/// one character of the pattern, with each repetition written out, was just read.
#[derive(Drop)]
pub struct Terms<'a> {
    pattern: &'a Pattern,
    /// Whether position 0 is in the set.
    at_start: bool,
    /// The other positions.
    active: Vec<u32>,
    /// Where the next step puts its positions.
    next: Vec<u32>,
    ghost rising: { Rises 0 active.items } by { Rises-prop 0 active.items },
    ghost few: { length active.items ≤ size (pattern_of pattern.now) },
}

impl Pattern {
    ghost use Rattle.jp_automaton.specs.Terms.{positions_of, pattern_read_by};

    /// What is left to read of the pattern before the first character: all of it.
    ///
    /// # Errors
    ///
    /// Memory ran out.
    pub fn start(&self, alloc: Global) -> Result<Terms<'_>, AllocError>
        ensures pattern { IfOk result (λ terms. pattern_read_by terms ≡ pattern_of self.now) }
        ensures positions { IfOk result (λ terms. positions_of terms ≡ 0 ∷ []) }
    {
        let size = self.root.size() as usize;
        Ok(Terms {
            pattern: self,
            at_start: true,
            // There are never more positions than that, so no step takes memory.
            active: Vec::with_capacity(alloc, size)?,
            next: Vec::with_capacity(alloc, size)?,
        })
    }
}

impl<'a> Terms<'a> {
    ghost use Rattle.jp_automaton.specs.Terms.{IsLeft, positions_of, pattern_read_by, TakesStep};

    /// Reads a character; where `anew` says so, the pattern may also begin behind it.
    ///
    /// # Errors
    ///
    /// Memory ran out. Then it is as before.
    pub fn step(&mut self, c: char, anew: bool) -> Result<(), AllocError>
        ensures pattern { pattern_read_by self.new ≡ pattern_read_by self.old }
        ensures ok { OnOk result (TakesStep self.old c anew self.new) }
        ensures err { OnErr result (positions_of self.new ≡ positions_of self.old) }
    {
        self.read(c, anew)?;
        Ok(())
    }

    /// The same; whether nothing was left to read before it.
    pub(crate) fn read(&mut self, c: char, anew: bool) -> Result<bool, AllocError>
        ensures pattern { pattern_read_by self.new ≡ pattern_read_by self.old }
        ensures ok { OnOk result (TakesStep self.old c anew self.new) }
        ensures err { OnErr result (positions_of self.new ≡ positions_of self.old) }
        ensures accepted { IfOk result (λ b. IsTrue b ↔ IsLeft self.old []) }
    {
        self.next.clear();
        let accepted = read_into(self.pattern, &self.active, self.at_start, c, &mut self.next)?;
        mem::swap(&mut self.active, &mut self.next);
        self.at_start = anew;
        Ok(accepted)
    }

    /// Whether nothing need be left to read: the empty text is among what is left.
    pub fn accepts(&self) -> bool
        ensures { IsTrue result ↔ IsLeft self.now [] }
    {
        let at = Cursor::start(self.at_start);
        exit(&self.pattern.root, &self.active, at).entered
    }

    /// How many positions there are, at most the unrolled size and one.
    pub fn len(&self) -> u64
        ensures count { result ≡ length (positions_of self.now) }
        ensures few { result ≤ size (pattern_read_by self.now) + 1 }
        ensures distinct { IsStrictlyIncreasing (positions_of self.now) }
    {
        self.active.len() as u64 + u64::from(self.at_start)
    }

    /// Whether position 0 is the only one.
    pub(crate) fn is_at_start(&self) -> bool
        ensures { IsTrue result ↔ (positions_of self.now ≡ 0 ∷ []) }
    {
        self.at_start && self.active.is_empty()
    }

    /// Whether no text is left to read.
    pub fn is_empty(&self) -> bool
        ensures { IsTrue result ↔ (positions_of self.now ≡ []) }
    {
        !self.at_start && self.active.is_empty()
    }
}

/// The positions behind a character; whether the empty text was left before it.
fn read_into(
    pattern: &Pattern,
    active: &[u32],
    at_start: bool,
    c: char,
    next: &mut Vec<u32>,
) -> Result<bool, AllocError>
    requires { Rises 0 active.now }
    ensures next { OnOk result (next.new.items ≡ next.old.items ++ step (is_elem active.now) c (unrolled
        (pattern_of
        pattern.now)) 0 at_start) }
    ensures accepted { IfOk result (λ b. b ≡ exits (is_elem active.now) (unrolled (pattern_of pattern.now))
        0 at_start) }
{
    let at = Cursor::start(at_start);
    let end = step(&pattern.root, StepInput { active, c }, at, next)?;
    Ok(end.entered)
}
