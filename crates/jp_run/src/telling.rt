//! Faulty lines, for a gate that wants them.

use jp_answer::{Crew, DocStop, Gate, Outcome, line_fault};
use jp_buffer::{LineRef, WaitingLines};
use jp_number::Numbers;

/// Tells the gate the faulty line at which the answer to these lines ends, or those that it passes, in their
/// order, as long as it wants them.
pub(crate) fn tell_gate<R, G: Gate>(
    crew: &Crew<R, G>,
    numbers: Numbers,
    lines: &[LineRef<'_>],
    answer: &Outcome,
) {
    match &answer.stopped {
        Some(stop) => tell_stop(crew, lines, stop),
        None => tell_passed(crew, numbers, lines, answer.faulty),
    }
}

/// Tells the gate the faulty line at which an answer ends. The answer says what is wrong with it, so it is
/// not read again.
fn tell_stop<R, G: Gate>(crew: &Crew<R, G>, lines: &[LineRef<'_>], stop: &DocStop) {
    if !crew.gate.wants_faulty() {
        return;
    }
    if let Some(line) = lines.iter().find(|line| line.number == stop.line) {
        crew.gate
            .faulty(crew.alloc, line.number, line.bytes, &stop.fault);
    }
}

/// Tells the gate the faulty lines that an answer passes, so many.
///
/// The lines are read again, so that workers keep nothing of a faulty line (README, The calling thread tells
/// faulty lines). Where memory for that is refused a line is passed over.
fn tell_passed<R, G: Gate>(
    crew: &Crew<R, G>,
    numbers: Numbers,
    lines: &[LineRef<'_>],
    faulty: u64,
) {
    let mut left = faulty;
    for line in lines {
        if left == 0 || !crew.gate.wants_faulty() {
            return;
        }
        if let Ok(Some(fault)) = line_fault(crew.alloc, numbers, line.bytes) {
            crew.gate
                .faulty(crew.alloc, line.number, line.bytes, &fault);
            left -= 1;
        }
    }
}

/// The same as `tell_gate` of lines that are still in their buffer. Where memory for a list of them is
/// refused nothing is told.
pub(crate) fn tell_waiting<R, G: Gate>(
    crew: &Crew<R, G>,
    numbers: Numbers,
    lines: &WaitingLines,
    answer: &Outcome,
) {
    if !is_faulty(answer) || !crew.gate.wants_faulty() {
        return;
    }
    if let Ok(lines) = lines.lines(crew.alloc) {
        tell_gate(crew, numbers, &lines, answer);
    }
}

/// Whether an answer passes a faulty line, or ends at one.
fn is_faulty(answer: &Outcome) -> bool {
    answer.faulty > 0 || answer.stopped.is_some()
}
