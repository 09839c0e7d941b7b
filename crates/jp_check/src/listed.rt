//! What the walk over a query's tree puts into lists of their own.

ghost use Rattle.std.specs.Prelude.{◌≡◌, ◌∷◌, [], IfOk, IfSome, OnOk, List, map, true};
ghost use Rattle.std.specs.Str.{chars};
ghost use Rattle.jp_tree.specs.Tree as tree;
ghost use Rattle.jp_tree.specs.View.{text_of};
ghost use Rattle.jp_tree.specs.declared.tree.Start.TheVariants as start;
ghost use Rattle.jp_compiled.specs.Parts.{Wanted, roots_of, root_at, segments_in, logical_in};
ghost use Rattle.jp_compiled.specs.Parts.{truth_argument};
ghost use Rattle.jp_compiled.specs.declared.query.ArgumentForm.{ArgumentForm};
ghost use Rattle.jp_compiled.specs.Uniform.{are_uniform as all_ask_nothing};

use crate::patterns::read_pattern;
use crate::uniform::{are_uniform, is_uniform};
use jp_compiled::{CompiledLogical, CompiledSegment, KnownPattern, RootPart, RootQuery, Want};
use jp_regexp::{CompileBudget, Question};
use std::alloc::{AllocError, Global};
use std::collections::BTreeMap;

/// What the walk puts into lists of their own.
#[derive(Drop)]
pub(crate) struct Listed {
    /// What filters ask of the document alone, each behind what it asks itself.
    pub(crate) roots: Vec<RootPart>,
    /// The literal patterns, in the order of the text.
    pub(crate) patterns: Vec<KnownPattern>,
    /// Where the first pattern of each text is listed that a whole text is matched with.
    whole_places: BTreeMap<String, usize>,
    /// Where that is listed which parts of texts are matched with.
    part_places: BTreeMap<String, usize>,
    /// What work may still be done to compile patterns.
    budget: CompileBudget,
    ghost uniform: { all_ask_nothing (roots_of roots.items) ≡ true },
}

impl Listed {
    ghost use Rattle.jp_check.specs.inner.Making.{Begins, KeepsRoots, ReadsOn, AddsPatterns};
    ghost use Rattle.jp_check.specs.inner.Uniform.{IsUniform};

    /// Nothing is listed. It takes no memory.
    pub(crate) fn new(alloc: Global) -> Listed
        ensures roots { result.roots.items ≡ [] }
        ensures patterns { result.patterns.items ≡ [] }
    {
        Listed {
            roots: Vec::new(alloc),
            patterns: Vec::new(alloc),
            whole_places: BTreeMap::new(alloc),
            part_places: BTreeMap::new(alloc),
            budget: CompileBudget::new(),
        }
    }

    /// One `$` query more, and its place.
    pub(crate) fn add_query(
        &mut self,
        want: Want,
        segments: Vec<CompiledSegment>,
    ) -> Result<usize, AllocError>
        ensures root { IfOk result (λ slot. (all : List Wanted) → Begins (roots_of self.new.roots.items) all
            → root_at all slot want ≡ tree.query start.Root
            (segments_in (roots_of self.old.roots.items) segments.items)) }
        ensures roots { OnOk result (KeepsRoots self.old self.new) }
        ensures patterns { OnOk result (self.new.patterns.items ≡ self.old.patterns.items) }
    {
        let slot = self.roots.len();
        let query = RootQuery { want, segments };
        self.roots.push(RootPart::Query(query))?;
        Ok(slot)
    }

    /// The expression, at a place of the list where it asks nothing of the current node.
    pub(crate) fn once(&mut self, test: CompiledLogical) -> Result<CompiledLogical, AllocError>
        ensures made { IfOk result (λ l. ReadsOn self.old self.new (λ all. logical_in all test)
            (λ all. logical_in all l)) }
        ensures roots { OnOk result (KeepsRoots self.old self.new) }
        ensures patterns { OnOk result (self.new.patterns.items ≡ self.old.patterns.items) }
    {
        if is_uniform(&test) {
            self.add_test(test)
        } else {
            Ok(test)
        }
    }

    /// An expression that asks nothing of the current node, at the next place of the list.
    fn add_test(&mut self, test: CompiledLogical) -> Result<CompiledLogical, AllocError>
        requires { IsUniform test }
        ensures made { IfOk result (λ l. (all : List Wanted) → Begins (roots_of self.new.roots.items) all
            → logical_in all l ≡ logical_in (roots_of self.old.roots.items) test) }
        ensures roots { OnOk result (KeepsRoots self.old self.new) }
        ensures patterns { OnOk result (self.new.patterns.items ≡ self.old.patterns.items) }
    {
        let slot = self.roots.len();
        self.roots.push(RootPart::Test(test))?;
        Ok(CompiledLogical::Once(slot))
    }

    /// The parts, those at places of the list that ask nothing of the current node, unless all of them ask
    /// nothing of it: then so does what they are parts of.
    pub(crate) fn apart(
        &mut self,
        alloc: Global,
        parts: Vec<CompiledLogical>,
    ) -> Result<Vec<CompiledLogical>, AllocError>
        ensures made { IfOk result (λ v. ReadsOn self.old self.new (λ all. map (logical_in all) parts.items)
            (λ all. map (logical_in all) v.items)) }
        ensures roots { OnOk result (KeepsRoots self.old self.new) }
        ensures patterns { OnOk result (self.new.patterns.items ≡ self.old.patterns.items) }
    {
        if are_uniform(parts.as_slice()) {
            return Ok(parts);
        }
        let mut made = Vec::with_capacity(alloc, parts.len())?;
        for part in parts {
            made.push(self.once(part)?)?;
        }
        Ok(made)
    }

    /// One of two arguments, beside the other: at a place of the list where it alone asks nothing of the
    /// current node.
    pub(crate) fn beside(
        &mut self,
        alloc: Global,
        test: Box<CompiledLogical>,
        other: &CompiledLogical,
    ) -> Result<Box<CompiledLogical>, AllocError>
        ensures made { IfOk result (λ l. (f : ArgumentForm) → ReadsOn self.old self.new
            (λ all. truth_argument f (logical_in all test.value))
            (λ all. truth_argument f (logical_in all l.value))) }
        ensures roots { OnOk result (KeepsRoots self.old self.new) }
        ensures patterns { OnOk result (self.new.patterns.items ≡ self.old.patterns.items) }
    {
        if is_uniform(other) || !is_uniform(&test) {
            return Ok(test);
        }
        let test = self.add_test(Box::into_inner(test))?;
        Ok(Box::new(alloc, test)?)
    }

    /// Reads the text as a pattern, and lists it. An equal one that was listed before, and is asked the same,
    /// is shared.
    pub(crate) fn add_pattern(
        &mut self,
        alloc: Global,
        text: &str,
        question: Question,
    ) -> Result<KnownPattern, AllocError>
        ensures read { IfOk result (λ k. text_of k.text ≡ chars text.now) }
        ensures listed { OnOk result (AddsPatterns self.old self.new (chars text.now ∷ [])) }
        ensures roots { OnOk result (self.new.roots.items ≡ self.old.roots.items) }
    {
        let known = match self.listed_before(alloc, text, question)? {
            Some(known) => known,
            None => self.read_first(alloc, text, question)?,
        };
        // Read once, and shared by its places in the tree and in the list
        // (README, Equal patterns share one reading).
        self.patterns.push(known.share(alloc)?)?;
        Ok(known)
    }

    /// The pattern of this text that is listed and is asked the same, if there is one.
    fn listed_before(
        &self,
        alloc: Global,
        text: &str,
        question: Question,
    ) -> Result<Option<KnownPattern>, AllocError>
        ensures { IfOk result (λ o. IfSome o (λ k. text_of k.text ≡ chars text.now)) }
    {
        let places = match question {
            Question::Whole => &self.whole_places,
            Question::Part => &self.part_places,
        };
        let Some(place) = places.get(text) else {
            return Ok(None);
        };
        match self.patterns.get(*place) {
            Some(known) if known.text.as_str() == text => Ok(Some(known.share(alloc)?)),
            _ => Ok(None),
        }
    }

    /// Reads a text that is not listed yet, whose place is the next.
    fn read_first(
        &mut self,
        alloc: Global,
        text: &str,
        question: Question,
    ) -> Result<KnownPattern, AllocError>
        ensures read { IfOk result (λ k. text_of k.text ≡ chars text.now) }
        ensures roots { self.new.roots.items ≡ self.old.roots.items }
        ensures patterns { self.new.patterns.items ≡ self.old.patterns.items }
    {
        let known = read_pattern(alloc, text, question, &mut self.budget)?;
        let place = self.patterns.len();
        let text = String::from_str(alloc, text)?;
        let entry = match question {
            Question::Whole => self.whole_places.insert(text, place),
            Question::Part => self.part_places.insert(text, place),
        };
        match entry {
            Ok(_) => Ok(known),
            Err(_) => Err(AllocError),
        }
    }
}
