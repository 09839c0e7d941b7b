//! Determinization of the position automaton, by the powerset construction, as far as a bound of states
//! allows.

ghost use Rattle.std.specs.Prelude.{◌≡◌, ◌+◌, ◌*◌, ◌<◌, ◌≤◌, [], true, IfOk, IfSome, OnOk, IsTrue, length};
ghost use Rattle.std.specs.Prelude.{slice_index_or};
ghost use Rattle.jp_pattern.specs.CharSets.{is_scalar};
ghost use Rattle.jp_automaton.specs.Expressions.{unrolled_in};
ghost use Rattle.jp_automaton.specs.inner.Dfa.{AreStates, Grows, HasPositions, IsCell, IsCellOf, IsDfa};
ghost use Rattle.jp_automaton.specs.inner.Dfa.{IsDfaOf};

use crate::dfa::{
    CONTINUATION, Dfa, MATCH_OR_DEAD, PAST_ASCII, QUIT, State, hash_of, positions_behind, state_of,
};
use crate::dfa_input::DfaInput;
use crate::limits::{MAX_STATES, STRIDE};
use std::alloc::AllocError;

/// Whether the state has these positions and no others.
fn has_positions(state: &State, active: &[u32], at_start: bool) -> bool
    ensures { IsTrue result → HasPositions state.now active.now at_start }
{
    state.at_start == at_start && state.active.as_slice() == active
}

/// The number of the state of these positions.
fn find_state(states: &[State], active: &[u32], at_start: bool) -> Option<usize>
    ensures within { IfSome result (λ n. n < length states.now) }
    ensures found { IfSome result (λ n. (d : State) → HasPositions (slice_index_or states.now n d) active.now
        at_start) }
{
    // One after another, for there are 254 at most, and most are passed by their hash.
    let hash = hash_of(active);
    for (i, state) in states.iter().enumerate() {
        if state.hash == hash && has_positions(state, active, at_start) {
            return Some(i);
        }
    }
    None
}

/// What the cell of a state and a character holds; the next state is added where there is room for it.
fn cell_of(
    input: DfaInput<'_>,
    states: &mut Vec<State>,
    from: usize,
    c: char,
) -> Result<u8, AllocError>
    requires states { AreStates (unrolled_in input.root.now) states.old.items }
    requires known { from < length states.old.items }
    requires few { length states.old.items ≤ MAX_STATES }
    ensures grows { IfOk result (λ cell. Grows (unrolled_in input.entry.root.now) states.old.items
        states.new.items) }
    ensures cell { IfOk result (λ cell. IsCell (unrolled_in input.entry.root.now) input.entry.unanchored
        states.new.items from c cell) }
    ensures few { IfOk result (λ cell. length states.new.items ≤ MAX_STATES) }
{
    let next = positions_behind(input.alloc, input.root, &states[from], c)?;
    if let Some(n) = find_state(states, &next, input.unanchored) {
        return Ok(n as u8);
    }
    let state = state_of(input.root, next, input.unanchored);
    if state.is_match_or_dead() {
        return Ok(MATCH_OR_DEAD);
    }
    // Full: a text that takes this step is matched by positions.
    if states.len() >= input.most {
        return Ok(QUIT);
    }
    let number = states.len() as u8;
    states.push(state)?;
    Ok(number)
}

/// What the cell of a state and a column holds: that of its class, if it is known.
fn column_cell(
    input: DfaInput<'_>,
    states: &mut Vec<State>,
    cells: &[u8],
    from: usize,
    column: usize,
) -> Result<u8, AllocError>
    requires known { from < length states.old.items }
    requires next { length cells.now ≡ from * STRIDE + column }
    requires column { column < STRIDE }
    requires dfa { IsDfaOf (unrolled_in input.root.now) input.unanchored states.old.items cells.now }
    ensures grows { IfOk result (λ cell. Grows (unrolled_in input.entry.root.now) states.old.items
        states.new.items) }
    ensures cell { IfOk result (λ cell. IsCellOf (unrolled_in input.entry.root.now) input.entry.unanchored
        states.new.items from column cell) }
    ensures stays { CONTINUATION ≤ column → column < PAST_ASCII → IfOk result (λ cell. cell ≡ from) }
    ensures few { IfOk result (λ cell. length states.new.items ≤ MAX_STATES) }
{
    if column > PAST_ASCII {
        return Ok(cells[from * STRIDE + PAST_ASCII]);
    }
    if column == PAST_ASCII {
        return Ok(cell_past_ascii(input, states, from)?);
    }
    if column >= CONTINUATION {
        return Ok(from as u8);
    }
    let first = input.classes.first[column];
    let known = usize::from(first);
    if known < column {
        return Ok(cells[from * STRIDE + known]);
    }
    Ok(cell_of(input, states, from, char::from(first))?)
}

/// What the cell of a state and of each character that is not of ASCII holds.
fn cell_past_ascii(
    input: DfaInput<'_>,
    states: &mut Vec<State>,
    from: usize,
) -> Result<u8, AllocError>
    requires states { AreStates (unrolled_in input.root.now) states.old.items }
    requires known { from < length states.old.items }
    requires few { length states.old.items ≤ MAX_STATES }
    ensures grows { IfOk result (λ cell. Grows (unrolled_in input.entry.root.now) states.old.items
        states.new.items) }
    ensures cell { IfOk result (λ cell. IsCellOf (unrolled_in input.entry.root.now) input.entry.unanchored
        states.new.items from PAST_ASCII cell) }
    ensures few { IfOk result (λ cell. length states.new.items ≤ MAX_STATES) }
{
    if input.classes.past_ascii {
        Ok(cell_of(input, states, from, '\u{80}')?)
    } else {
        Ok(QUIT)
    }
}

/// The DFA of the states that are met from the start.
///
/// # Errors
///
/// Memory ran out.
pub(crate) fn make_dfa(input: DfaInput<'_>) -> Result<Dfa, AllocError>
    ensures { IfOk result (λ dfa. IsDfa (unrolled_in input.entry.root.now) input.entry.unanchored dfa) }
{
    let mut states = Vec::new(input.alloc);
    let mut cells = Vec::new(input.alloc);
    states.push(state_of(input.root, Vec::new(input.alloc), true))?;
    for i in 0..MAX_STATES {
        if i >= states.len() {
            break;
        }
        add_row(input, &mut states, &mut cells, i)?;
    }
    Ok(Dfa { states, cells })
}

/// The cells of one state more.
fn add_row(
    input: DfaInput<'_>,
    states: &mut Vec<State>,
    cells: &mut Vec<u8>,
    from: usize,
) -> Result<(), AllocError>
    requires known { from < length states.old.items }
    requires next { length cells.old.items ≡ from * STRIDE }
    requires dfa { IsDfaOf (unrolled_in input.root.now) input.unanchored states.old.items cells.old.items }
    ensures next { OnOk result (length cells.new.items ≡ from * STRIDE + STRIDE) }
    ensures longer { OnOk result (length states.old.items ≤ length states.new.items) }
    ensures dfa { OnOk result (IsDfaOf (unrolled_in input.entry.root.now) input.entry.unanchored
        states.new.items cells.new.items) }
{
    for column in 0..STRIDE {
        let cell = column_cell(input, states, cells, from, column)?;
        cells.push(cell)?;
    }
    Ok(())
}
