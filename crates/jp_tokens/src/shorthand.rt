//! What points begin: `*` or a name.

ghost use Rattle.std.specs.Prelude.{◌≡◌};
ghost use Rattle.std.specs.Str.{chars};
ghost use Rattle.jp_tokens.specs.Reading as reading;
ghost use Rattle.jp_tree.specs.PartViews.{segment_of};
ghost use Rattle.jp_tree.specs.Tree as tree;
ghost use Rattle.jp_tokens.specs.Gives.{GivesFront};

use crate::text::{first_character, name_at};
use jp_tree::made::{name_selector, one_selector, segment_from, wildcard};
use jp_tree::{QueryFault, Segment};
use std::alloc::Global;

/// Behind the points, `*` or a name (RFC 9535, 2.5.1 and 2.5.2).
#[tactic(auto, unfolding(crate::specs::Reading::named_at))]
pub fn named_at(alloc: Global, deep: bool, text: &str) -> Result<(Segment, &str), QueryFault>
    ensures { GivesFront segment_of result
        (reading.named_at (λ xs. tree.segment deep (tree.selectors xs)) (chars text.now)) }
{
    match first_character(text) {
        None => Err(QueryFault::Syntax),
        Some(('*', rest)) => Ok((segment_from(deep, one_selector(alloc, wildcard())?), rest)),
        Some(_) => {
            let (name, rest) = name_at(text)?;
            let selector = name_selector(String::from_str(alloc, name)?);
            Ok((segment_from(deep, one_selector(alloc, selector)?), rest))
        }
    }
}
