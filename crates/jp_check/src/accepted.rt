//! Plans: queries that were accepted.

ghost use Rattle.jp_tree.specs.Tree.{Text};
ghost use Rattle.jp_tree.specs.View.{query_of};
ghost use Rattle.std.specs.Prelude.{◌≡◌};
ghost use Rattle.jp_check.specs.Known.{known_texts};
ghost use Rattle.jp_check.specs.LiteralPatterns.{literal_patterns};
ghost use Rattle.jp_compiled.specs.Compiled.{compiled_query as meaning};
ghost use Rattle.jp_check.specs.inner.QuerySets.{query_set};
ghost use Rattle.jp_check.specs.Verdict.{IsAcceptedIn};

use crate::known::Known;
use jp_compiled::{CompiledQuery, KnownPattern};
use jp_number::Numbers;
use jp_tree::Query;

/// A query that is well-formed, valid and well-typed (RFC 9535, 2.1).
#[derive(Drop)]
pub struct Plan {
    pub(crate) query: Query,
    pub(crate) patterns: Vec<KnownPattern>,
    pub(crate) compiled: CompiledQuery,
    pub(crate) numbers: Numbers,
    ghost accepted: { ∥ ((t : Text) × IsAcceptedIn numbers t (query_of query)) ∥₁ },
    ghost known: { known_texts patterns.items ≡ literal_patterns (query_of query) },
    ghost made: { meaning compiled ≡ query_of query } by { query_set (meaning compiled) (query_of query) },
}

impl Plan {
    ghost use Rattle.jp_check.specs.Plan.{planned_query, planned_numbers, IsAcceptedQuery};
    ghost use Rattle.std.specs.Str.{chars};
    ghost use Rattle.jp_check.specs.Known.{Tells};

    /// The query.
    pub fn query(&self) -> &Query
        ensures value { query_of result.now ≡ planned_query self.now }
        ensures accepted { IsAcceptedQuery (planned_numbers self.now) (planned_query self.now) }
    {
        &self.query
    }

    /// The numbers that its literals may be.
    pub fn numbers(&self) -> Numbers
        ensures { result ≡ planned_numbers self.now }
    {
        self.numbers
    }

    /// The same query compiled, with its numbers, functions and literal patterns.
    pub fn compiled(&self) -> &CompiledQuery
        ensures { meaning result.now ≡ planned_query self.now }
    {
        &self.compiled
    }

    /// The literal patterns of the query, in the order of the text: each second argument of `match` or
    /// `search` that is a text, with the pattern that it is, if it is one. It takes no memory.
    pub fn patterns(&self) -> &[KnownPattern]
        ensures { known_texts result.now ≡ literal_patterns (planned_query self.now) }
    {
        &self.patterns
    }

    /// What is known of the text as a pattern: what it is, if it stands in the query as a literal second
    /// argument of `match` or `search`. It takes no memory.
    pub fn pattern(&self, text: &str) -> Known<'_>
        ensures { Tells (literal_patterns (planned_query self.now)) (chars text.now) result }
    {
        for known in &self.patterns {
            if known.text.as_str() == text {
                return match &known.pattern {
                    Some(pattern) => Known::Read(&**pattern),
                    None => Known::NoPattern,
                };
            }
        }
        Known::Unknown
    }
}
