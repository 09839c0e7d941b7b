//! The position automaton of a pattern, determinized: states with a transition table over bytes.

ghost use Rattle.std.specs.Prelude.{◌≡◌, ◌+◌, ◌*◌, ◌<◌, ◌≤◌, [], true, false, drop, IfOk, IfSome, IsTrue};
ghost use Rattle.std.specs.Prelude.{length};
ghost use Rattle.jp_automaton.specs.Expressions.{meaning, unrolled_in};
ghost use Rattle.jp_pattern.specs.Profile.{max_size};
ghost use Rattle.jp_pattern.specs.Unrolled.{letters};
ghost use Rattle.jp_automaton.specs.inner.Simulation.{step, is_elem, exits, Rises};

use crate::cursor::Cursor;
use crate::exit::exit;
use crate::expressions::Expression;
use crate::limits::STRIDE;
use crate::prefilter::Prefilter;
use crate::signatures::mix;
use crate::step::step;
use crate::step_input::StepInput;
use std::alloc::{AllocError, Global};

/// The cell of a step that is not in the table: the DFA quits there, and the text is matched by positions.
pub(crate) const QUIT: u8 = 255;

/// The cell of a step behind which the answer is known: of the unanchored DFA a match state, since a part was
/// found, and of the one for whole texts the dead state, since no text is left.
pub(crate) const MATCH_OR_DEAD: u8 = 254;

/// The first continuation byte of UTF-8; those below it are the characters of ASCII.
pub(crate) const CONTINUATION: usize = 128;

/// The first byte of UTF-8 that a character that is not of ASCII begins with.
pub(crate) const PAST_ASCII: usize = 192;

/// A set of positions of a pattern.
#[derive(Drop)]
pub struct State {
    /// Whether position 0 is in the set.
    pub at_start: bool,
    /// The other positions.
    pub active: Vec<u32>,
    /// Whether it is a match state: the empty text is left there.
    pub accepts: bool,
    /// A hash of the other positions, by which most states are told from each other at once.
    pub hash: u64,
}

/// The states that are met from the start of a pattern, and the transitions between them.
#[derive(Drop)]
pub struct Dfa {
    /// State 0 is the start. There are none where the pattern was not compiled.
    pub states: Vec<State>,
    /// The transition table: for each state, and then for each byte, the number of the next state,
    /// `MATCH_OR_DEAD` or `QUIT`. A character is read where its first byte is, and the state stays for its
    /// continuation bytes.
    pub cells: Vec<u8>,
}

/// Where a walk from the start leads.
#[derive(Clone, Copy)]
pub struct Walk {
    pub state: u8,
    /// How many bytes were read, where it leads back to the start.
    pub read: usize,
}

impl State {
    /// Whether the answer is known behind a step that leads here: with position 0 it is a match, without it
    /// nothing is left.
    pub(crate) fn is_match_or_dead(&self) -> bool
        ensures found { IsTrue result → self.now.at_start ≡ true → self.now.accepts ≡ true }
        ensures dead { IsTrue result → self.now.at_start ≡ false → self.now.active.items ≡ [] }
        ensures no_match { result ≡ false → self.now.at_start ≡ true → self.now.accepts ≡ false }
    {
        if self.at_start {
            self.accepts
        } else {
            self.active.is_empty()
        }
    }
}

impl Dfa {
    ghost use Rattle.jp_pattern.specs.CharSets.{is_scalar};
    ghost use Rattle.jp_automaton.specs.inner.Dfa.{cell_at, column_of, state_after, state_behind};
    ghost use Rattle.jp_automaton.specs.inner.Prefilter.{IsPrefilter};

    /// A DFA without states.
    pub(crate) fn new(alloc: Global) -> Dfa
        ensures states { result.states.items ≡ [] }
        ensures cells { result.cells.items ≡ [] }
    {
        Dfa {
            states: Vec::new(alloc),
            cells: Vec::new(alloc),
        }
    }

    /// The number of the state behind a character, `MATCH_OR_DEAD`, or `QUIT` where the step is not in the
    /// table.
    pub(crate) fn next(&self, state: usize, c: char) -> u8
        requires { state < STRIDE }
        ensures scalar { IsTrue (is_scalar c) }
        ensures cell { result < QUIT → cell_at self.now.cells.items state (column_of c) ≡ result }
    {
        let column = if c < '\u{80}' { c as usize } else { PAST_ASCII };
        let index = state * STRIDE + column;
        if index < self.cells.len() {
            self.cells[index]
        } else {
            QUIT
        }
    }

    /// The number of the state behind a byte; where a state has no cells, it stays.
    pub(crate) fn after(&self, state: u8, byte: u8) -> u8
        ensures { result ≡ state_after self.now.cells.items state byte }
    {
        let index = usize::from(state) * STRIDE + usize::from(byte);
        if index < self.cells.len() {
            self.cells[index]
        } else {
            state
        }
    }

    /// The number of the state that these bytes lead to from the start.
    pub(crate) fn behind(&self, bytes: &[u8]) -> u8
        requires full { length self.now.cells.items ≡ length self.now.states.items * STRIDE }
        ensures { result ≡ state_behind self.now.cells.items 0 bytes.now }
    {
        let mut state = 0u8;
        for byte in bytes {
            let index = usize::from(state) * STRIDE + usize::from(*byte);
            // `QUIT` and `MATCH_OR_DEAD` are above the number of every state, so one test tells them and ends
            // the walk.
            if index >= self.cells.len() {
                return state;
            }
            state = self.cells[index];
        }
        state
    }

    /// The same, where a prefilter tells which bytes may be passed.
    pub(crate) fn behind_prefiltered(&self, prefilter: &Prefilter, bytes: &[u8]) -> u8
        requires full { length self.now.cells.items ≡ length self.now.states.items * STRIDE }
        requires some { 0 < length self.now.states.items }
        requires all { length prefilter.now.flags.items ≡ 256 }
        requires right { IsPrefilter self.now.cells.items prefilter.now.flags.items }
        ensures { result ≡ state_behind self.now.cells.items 0 bytes.now }
    {
        let mut rest = bytes;
        while !rest.is_empty() {
            let from = &rest[prefilter.find(rest)..];
            let walk = self.walk(from);
            if walk.state != 0 {
                return walk.state;
            }
            rest = &from[walk.read..];
        }
        0
    }

    /// Reads on until the start state is met again, or the answer is known.
    fn walk(&self, bytes: &[u8]) -> Walk
        requires full { length self.now.cells.items ≡ length self.now.states.items * STRIDE }
        requires some { 0 < length self.now.states.items }
        ensures within { result.read ≤ length bytes.now }
        ensures moves { 0 < length bytes.now → result.state ≡ 0 → 0 < result.read }
        ensures back { result.state ≡ 0 → state_behind self.now.cells.items 0 bytes.now
            ≡ state_behind self.now.cells.items 0 (drop result.read bytes.now) }
        ensures stays { 0 < result.state → state_behind self.now.cells.items 0 bytes.now ≡ result.state }
    {
        let mut state = 0u8;
        for (i, byte) in bytes.iter().enumerate() {
            let index = usize::from(state) * STRIDE + usize::from(*byte);
            if index >= self.cells.len() {
                return Walk { state, read: i };
            }
            state = self.cells[index];
            if state == 0 {
                return Walk { state, read: i + 1 };
            }
        }
        Walk {
            state,
            read: bytes.len(),
        }
    }
}

/// The state of these positions.
pub(crate) fn state_of(root: &Expression, active: Vec<u32>, at_start: bool) -> State
    requires sized { IsTrue (meaning root.now).is_sized }
    requires fits { letters (unrolled_in root.now) ≤ max_size }
    requires rises { Rises 0 active.items }
    ensures active { result.active.items ≡ active.items }
    ensures at_start { result.at_start ≡ at_start }
    ensures accepts { result.accepts ≡ exits (is_elem active.items) (unrolled_in root.now) 0 at_start }
{
    let accepts = exit(root, &active, Cursor::start(at_start)).entered;
    let hash = hash_of(&active);
    State {
        at_start,
        active,
        accepts,
        hash,
    }
}

/// A hash of positions.
pub(crate) fn hash_of(active: &[u32]) -> u64 {
    let mut hash = 0;
    for position in active {
        hash = mix(hash, u64::from(*position));
    }
    hash
}

/// The positions behind a character.
pub(crate) fn positions_behind(
    alloc: Global,
    root: &Expression,
    state: &State,
    c: char,
) -> Result<Vec<u32>, AllocError>
    requires sized { IsTrue (meaning root.now).is_sized }
    requires fits { letters (unrolled_in root.now) ≤ max_size }
    requires rises { Rises 0 state.now.active.items }
    ensures positions { IfOk result (λ next. next.items
        ≡ step (is_elem state.now.active.items) c (unrolled_in root.now) 0 state.now.at_start) }
    ensures rises { IfOk result (λ next. Rises 0 next.items) }
{
    let mut next = Vec::new(alloc);
    let input = StepInput {
        active: &state.active,
        c,
    };
    step(root, input, Cursor::start(state.at_start), &mut next)?;
    Ok(next)
}
