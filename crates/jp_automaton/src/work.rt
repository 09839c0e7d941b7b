//! What it costs to compile a pattern, and how much of that a query may take.

ghost use Rattle.std.specs.Prelude.{◌≤◌};
ghost use Rattle.jp_automaton.specs.declared.limits.TheConstants.{MAX_STATES};

use crate::byte_classes::ByteClasses;
use crate::expressions::Expression;
use crate::limits::{MAX_STATES, MAX_WORK, MAX_WORK_OF_ONE, STRIDE};

/// How much work may still be done to compile the patterns of one query. A unit is a byte of a transition
/// table or a look at a part of a pattern, so it bounds time and memory.
#[derive(Debug, Drop)]
pub struct CompileBudget {
    left: u64,
}

impl CompileBudget {
    /// The budget of a query.
    pub fn new() -> CompileBudget {
        CompileBudget { left: MAX_WORK }
    }

    /// How many states a DFA may have, where each takes so much work.
    pub(crate) fn states(&self, work: u64) -> usize
        ensures { result ≤ MAX_STATES }
    {
        let most = self.left.min(MAX_WORK_OF_ONE) / work.max(1);
        most.min(MAX_STATES as u64) as usize
    }

    /// Takes the work of so many states, each so much.
    pub(crate) fn take(&mut self, states: usize, work: u64) {
        self.left = self.left.saturating_sub(work.saturating_mul(states as u64));
    }
}

/// How many parts of an expression are looked at, at most, by a walk that reads nothing, and by a step.
#[derive(Clone, Copy)]
struct Looks {
    exit: u64,
    step: u64,
}

impl Looks {
    /// One look.
    fn one() -> Looks {
        Looks { exit: 1, step: 1 }
    }

    /// Those of both.
    fn and(self, other: Looks) -> Looks {
        Looks {
            exit: self.exit.saturating_add(other.exit),
            step: self.step.saturating_add(other.step),
        }
    }

    /// So many times.
    fn times(self, count: u32) -> Looks {
        Looks {
            exit: self.exit.saturating_mul(u64::from(count)),
            step: self.step.saturating_mul(u64::from(count)),
        }
    }

    /// Those of one copy that may be repeated: a step asks first whether its end is reached.
    fn repeated(self) -> Looks {
        Looks {
            exit: self.exit,
            step: self.exit.saturating_add(self.step),
        }
    }
}

/// What one state of a DFA costs: its cells, and for each class a step, whose looks take some four times as
/// long as a cell, and the search for the state that it leads to.
pub(crate) fn work_of_state(root: &Expression, classes: &ByteClasses) -> u64 {
    let looks = looks_of(root);
    let step = looks.exit.saturating_add(looks.step).saturating_mul(4);
    step.saturating_add(MAX_STATES as u64 / 4)
        .saturating_mul(classes.count())
        .saturating_add(STRIDE as u64)
}

/// How many looks an expression takes.
#[cycle(looks)]
fn looks_of(expression: &Expression) -> Looks {
    match expression {
        Expression::Set(_) => Looks::one(),
        Expression::Group { sub, .. } => Looks::one().and(looks_of(sub)),
        Expression::Pieces { pieces, .. } => looks_of_all(pieces),
        Expression::Branches { before, last, .. } => looks_of_all(before).and(looks_of(last)),
        Expression::Repeat {
            least,
            most,
            atom,
            ..
        } => {
            let one = Looks::one().and(looks_of(atom));
            match most {
                Some(most) => one.times(*most),
                None => one.times(*least).and(one.repeated()),
            }
        }
        Expression::Plus { atom, .. } => Looks::one().and(looks_of(atom)).repeated(),
    }
}

/// Those of all of them, and one.
#[cycle(looks)]
fn looks_of_all(expressions: &[Expression]) -> Looks {
    let mut looks = Looks::one();
    for expression in expressions {
        looks = looks.and(looks_of(expression));
    }
    looks
}
