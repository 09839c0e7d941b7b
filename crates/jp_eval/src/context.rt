//! What a walk is given throughout.

ghost use Rattle.std.specs.Prelude.{◌≡◌, true};
ghost use Rattle.jp_compiled.specs.Parts.{roots_of};
ghost use Rattle.jp_eval.specs.inner.Rooted.{are_answers};
ghost use Rattle.jp_node.specs.Part.{part_value};

use jp_compiled::{CompiledLogical, Giver, Nodes, RootPart, Want};
use jp_found::{Aggregate, Length, RootAnswer, is_result_of, of_one};
use jp_node::{Kind, Part};
use jp_value::{Ordered, ReadPattern};
use std::alloc::{AllocError, Global};

/// What a walk is given throughout: the document, and the answers to what filters ask of it alone, which are
/// the same at every node.
#[derive(Drop)]
pub(crate) struct Context<'v> {
    pub(crate) alloc: Global,
    pub(crate) root: Part<'v>,
    /// The parts of filters that are answered.
    pub(crate) roots: &'v [RootPart],
    /// What is told of the nodes of each. Of what is no `$` query it is told of `$`.
    // Lent from the document, so that the compiler lets none outlive it
    // (README, No answer outlives its document).
    pub(crate) answers: Vec<RootAnswer<'v>>,
    /// Whether the expressions are true. Of what is no expression it is true.
    pub(crate) truths: Vec<bool>,
    ghost answered: { are_answers (part_value root) (roots_of roots.now) answers.items truths.items ≡ true },
}

impl<'v> Context<'v> {
    ghost use Rattle.std.specs.Prelude.{◌++◌, ◌∷◌, [], Some, IfOk, IfSome, MatchOption};
    ghost use Rattle.std.specs.Str.{chars};
    ghost use Rattle.jp_doc.specs.Json.{text};
    ghost use Rattle.jp_compiled.specs.Parts.{root_at, test_at, wanted_in};
    ghost use Rattle.jp_doc.specs.Location.{Node};
    ghost use Rattle.jp_tree.specs.Tree.{query, no_segments};
    ghost use Rattle.jp_tree.specs.declared.tree.Start.TheVariants as start;
    ghost use Rattle.jp_found.specs.Aggregates.{tells, told};
    ghost use Rattle.jp_eval.specs.inner.Base.{base_of};
    ghost use Rattle.jp_eval.specs.inner.Walk.{is_true, value_given, nodes_given};
    ghost use Rattle.jp_found.specs.RootAnswers.{IsLength};
    ghost use Rattle.jp_value.specs.Kinds.{given_value};
    ghost use Rattle.jp_value.specs.Ordered.{ordered_value};
    ghost use Rattle.jp_eval.specs.inner.Rooted.{is_answer};
    ghost use Rattle.jp_eval.specs.Nodelist.{nodelist, holds};
    ghost use Rattle.jp_value.specs.RightTests.{tests};

    /// With nothing answered.
    pub(crate) fn new(alloc: Global, root: Part<'v>) -> Context<'v>
        ensures root { part_value result.root ≡ part_value root.entry }
        ensures roots { result.roots.now ≡ [] }
    {
        Context {
            alloc,
            root,
            roots: &[],
            answers: Vec::new(alloc),
            truths: Vec::new(alloc),
        }
    }

    /// With one more part answered, the last of these.
    pub(crate) fn with(
        self,
        roots: &'v [RootPart],
        part: &RootPart,
        answer: RootAnswer<'v>,
        truth: bool,
    ) -> Result<Context<'v>, AllocError>
        requires roots { roots.now ≡ self.roots.now ++ part.now ∷ [] }
        requires answer { is_answer (part_value self.root)
            (wanted_in (roots_of self.roots.now) part.now) answer.answer truth ≡ true }
        ensures root { IfOk result (λ g. part_value g.root ≡ part_value self.entry.root) }
        ensures roots { IfOk result (λ g. g.roots.now ≡ roots.now) }
    {
        let Context {
            alloc,
            root,
            roots: _,
            mut answers,
            mut truths,
        } = self;
        answers.push(answer)?;
        truths.push(truth)?;
        Ok(Context {
            alloc,
            root,
            roots,
            answers,
            truths,
        })
    }

    /// What is told of the `$` query of a slot, or of `$` where there is none of which this is wanted.
    pub(crate) fn answer(&self, slot: usize, want: Want) -> Aggregate<'v>
        ensures { (n : Node) → tells want (nodelist tests (part_value self.now.root)
            (root_at (roots_of self.now.roots.now) slot want) n) result ≡ true }
    {
        match self.answered(slot, want) {
            Some(known) => known.answer,
            // `root_at` gives `$` of such a slot, so that nothing has to be required of slots.
            None => of_one(want, self.root),
        }
    }

    /// What is known of the `$` query of a slot, where there is one of which this is wanted.
    fn answered(&self, slot: usize, want: Want) -> Option<&RootAnswer<'v>>
        ensures { MatchOption result
            (root_at (roots_of self.now.roots.now) slot want ≡ query start.Root no_segments)
            (λ known. (n : Node) → tells want (nodelist tests (part_value self.now.root)
            (root_at (roots_of self.now.roots.now) slot want) n) known.now.answer ≡ true) }
    {
        let Some(known) = self.answers.get(slot) else {
            return None;
        };
        if is_result_of(want, known.answer) {
            Some(known)
        } else {
            None
        }
    }

    /// Whether the expression of a slot is true, and true where there is none.
    pub(crate) fn truth(&self, slot: usize) -> bool
        ensures { (n : Node) → result ≡ holds tests (part_value self.now.root)
            (test_at (roots_of self.now.roots.now) slot) n }
    {
        match self.truths.get(slot) {
            Some(truth) => *truth,
            // `test_at` gives what is true of such a slot, so that nothing has to be required of slots.
            None => true,
        }
    }

    /// Whether the expression is true of every node, where it is one that is answered once a document.
    pub(crate) fn known_truth(&self, test: &CompiledLogical) -> Option<bool>
        ensures { IfSome result (λ b. (n : Node) → is_true (base_of self.now) test.now n ≡ b) }
    {
        match test {
            CompiledLogical::Once(slot) => Some(self.truth(*slot)),
            _ => None,
        }
    }

    /// The value that is kept of the `$` query which gives it, or its length, if it is kept.
    pub(crate) fn given(&self, giver: &Giver) -> Option<Option<Kind<'_>>>
        ensures { IfSome result (λ o. (n : Node)
            → given_value o ≡ value_given (base_of self.now) giver.now n) }
    {
        match giver {
            Giver::Length(of) => match self.known_length(of) {
                Length::Unknown => None,
                Length::Nothing => Some(None),
                Length::Number(number) => Some(Some(Kind::Whole(number))),
            },
            _ => self.known_value(giver),
        }
    }

    /// The length of the value of the `$` query that gives it, if it is kept.
    fn known_length(&self, giver: &Giver) -> Length
        ensures { (n : Node) → IsLength result (value_given (base_of self.now) giver.now n) }
    {
        match self.known(giver) {
            Some(known) => known.length,
            None => Length::Unknown,
        }
    }

    /// The pattern that the value of the `$` query is which gives it, if it is kept.
    pub(crate) fn pattern(&self, giver: &Giver) -> Option<&ReadPattern<'v>>
        ensures { IfSome result (λ read. (n : Node)
            → value_given (base_of self.now) giver.now n ≡ Some (text (chars read.now.text.now))) }
    {
        match self.known(giver) {
            Some(known) => known.pattern(),
            None => None,
        }
    }

    /// The value of the `$` query which gives it, its members in order, if it is kept.
    pub(crate) fn ordered(&self, giver: &Giver) -> Option<&Ordered<'v>>
        ensures { IfSome result (λ o. (n : Node)
            → value_given (base_of self.now) giver.now n ≡ Some (ordered_value o.now)) }
    {
        match self.known(giver) {
            Some(known) => known.ordered(),
            None => None,
        }
    }

    /// The value of the `$` query that gives it.
    fn known_value(&self, giver: &Giver) -> Option<Option<Kind<'_>>>
        ensures { IfSome result (λ o. (n : Node)
            → given_value o ≡ value_given (base_of self.now) giver.now n) }
    {
        match self.known(giver) {
            Some(known) => Some(known.value()),
            None => None,
        }
    }

    /// What is known of the `$` query that gives a value.
    fn known(&self, giver: &Giver) -> Option<&RootAnswer<'v>>
        ensures { IfSome result (λ known. (n : Node)
            → told known.now.answer ≡ value_given (base_of self.now) giver.now n) }
    {
        match giver {
            Giver::Single(nodes) => self.known_nodes(nodes, Want::First),
            Giver::Only(nodes) => self.known_nodes(nodes, Want::Only),
            _ => None,
        }
    }

    /// What is known of the nodes, where they are those of a `$` query of which this is wanted.
    fn known_nodes(&self, nodes: &Nodes, want: Want) -> Option<&RootAnswer<'v>>
        ensures { IfSome result (λ known. (n : Node) → tells want
            (nodes_given (base_of self.now) nodes.now want n) known.now.answer ≡ true) }
    {
        match nodes {
            Nodes::Root(slot) => self.answered(*slot, want),
            _ => None,
        }
    }
}
