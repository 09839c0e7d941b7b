//! Which texts are patterns.

ghost use Rattle.std.specs.Prelude.{◌≡◌, ◌≤◌, IfOk, IsTrue, false, true};
ghost use Rattle.std.specs.Str.{chars};
ghost use Rattle.jp_automaton.specs.Held.{IsRead, pattern_of};
ghost use Rattle.jp_automaton.specs.Expressions.{meaning, unrolled_in};
ghost use Rattle.jp_pattern.specs.Profile.{max_size};
ghost use Rattle.jp_automaton.specs.inner.Dfa.{IsDfa};
ghost use Rattle.jp_pattern.specs.Unrolled.{letters};

use crate::byte_classes::make_byte_classes;
use crate::determinize::make_dfa;
use crate::dfa::Dfa;
use crate::dfa_input::DfaInput;
use crate::expressions::{Expression, expression_of};
use crate::limits::MAX_SIZE;
use crate::pattern::Pattern;
use crate::pattern::matching::characters;
use crate::prefilter::{Prefilter, make_prefilter};
use crate::question::Question;
use crate::work::{CompileBudget, work_of_state};
use jp_pattern::{PatternFault, read_tree};
use std::alloc::{AllocError, Global};

impl Pattern {
    /// The pattern that the text is, or None where it is no I-Regexp within the limits of this
    /// implementation (RFC 9485, 3 and 8): each count at most 1,000, at most 64 parentheses inside each
    /// other, and an unrolled size of at most 10,000.
    ///
    /// # Errors
    ///
    /// Memory ran out.
    pub fn read(alloc: Global, text: &str) -> Result<Option<Pattern>, AllocError>
        ensures { IfOk result (λ read. IsRead (chars text.now) read) }
    {
        let text = characters(alloc, text)?;
        match read_tree(alloc, &text) {
            Err(PatternFault::Memory) => Err(AllocError),
            Err(PatternFault::NoPattern) => Ok(None),
            Ok(node) => {
                let root = expression_of(alloc, node)?;
                if root.size() > MAX_SIZE {
                    return Ok(None);
                }
                let whole = Dfa::new(alloc);
                let part = Dfa::new(alloc);
                let prefilter = Prefilter::new(alloc, None);
                Ok(Some(Pattern {
                    root,
                    whole,
                    part,
                    prefilter,
                }))
            }
        }
    }

    /// The same, compiled for many texts that are asked one question, as far as the budget allows: its
    /// position automaton is determinized now, and the question is answered by the transition table. Any
    /// other question, and a pattern for which no work is left, is answered by positions.
    ///
    /// # Errors
    ///
    /// Memory ran out.
    pub fn compiled(
        alloc: Global,
        text: &str,
        question: Question,
        budget: &mut CompileBudget,
    ) -> Result<Option<Pattern>, AllocError>
        ensures { IfOk result (λ read. IsRead (chars text.now) read) }
    {
        let Some(pattern) = Pattern::read(alloc, text)? else {
            return Ok(None);
        };
        match question {
            Question::Whole => Ok(Some(pattern.for_whole_texts(alloc, budget)?)),
            Question::Part => Ok(Some(pattern.for_parts(alloc, budget)?)),
        }
    }

    /// The same pattern with the DFA for whole texts.
    fn for_whole_texts(
        self,
        alloc: Global,
        budget: &mut CompileBudget,
    ) -> Result<Pattern, AllocError>
        ensures { IfOk result (λ made. pattern_of made ≡ pattern_of self) }
    {
        let whole = dfa_of(alloc, &self.root, false, budget)?;
        let Pattern {
            root,
            whole: _,
            part,
            prefilter,
        } = self;
        Ok(Pattern {
            root,
            whole,
            part,
            prefilter,
        })
    }

    /// The same pattern with the unanchored DFA and its prefilter.
    fn for_parts(self, alloc: Global, budget: &mut CompileBudget) -> Result<Pattern, AllocError>
        ensures { IfOk result (λ made. pattern_of made ≡ pattern_of self) }
    {
        let part = dfa_of(alloc, &self.root, true, budget)?;
        let prefilter = make_prefilter(alloc, &part)?;
        let Pattern {
            root,
            whole,
            part: _,
            prefilter: _,
        } = self;
        Ok(Pattern {
            root,
            whole,
            part,
            prefilter,
        })
    }
}

/// The DFA of a pattern, without states where the budget allows for one alone.
fn dfa_of(
    alloc: Global,
    root: &Expression,
    unanchored: bool,
    budget: &mut CompileBudget,
) -> Result<Dfa, AllocError>
    requires sized { IsTrue (meaning root.now).is_sized }
    requires fits { letters (unrolled_in root.now) ≤ max_size }
    ensures { IfOk result (λ made. IsDfa (unrolled_in root.now) unanchored made) }
{
    let classes = make_byte_classes(alloc, root)?;
    let work = work_of_state(root, &classes);
    let most = budget.states(work);
    if most < 2 {
        return Ok(Dfa::new(alloc));
    }
    let input = DfaInput {
        alloc,
        root,
        classes: &classes,
        unanchored,
        most,
    };
    let dfa = make_dfa(input)?;
    budget.take(dfa.states.len(), work);
    Ok(dfa)
}
