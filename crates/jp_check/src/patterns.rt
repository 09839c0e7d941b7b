//! The literal patterns of a query.

ghost use Rattle.std.specs.Prelude.{◌≡◌, IfOk, option_map, option_to_list};
ghost use Rattle.std.specs.Str.{chars};
ghost use Rattle.jp_tree.specs.View.{text_of};
ghost use Rattle.jp_tree.specs.PartViews as view;
ghost use Rattle.jp_check.specs.LiteralPatterns as literal;

use jp_compiled::KnownPattern;
use jp_regexp::{CompileBudget, Pattern, Question};
use jp_tree::{Argument, Literal};
use std::alloc::{AllocError, Global};
use std::sync::Arc;

/// The text that an argument is as a literal.
pub(crate) fn literal_text(argument: &Argument) -> Option<&str>
    ensures { option_to_list (option_map (λ s. chars s.now) result)
        ≡ literal.literal_text (view.argument_of argument.now) }
{
    match argument {
        Argument::Literal(literal) => match literal {
            Literal::Text(text) => Some(text.as_str()),
            Literal::Number(_) | Literal::Truth(_) | Literal::Null => None,
        },
        Argument::Query(_) | Argument::Logical(_) | Argument::Call(_) => None,
    }
}

/// The text, and the pattern that it is, if it is one, compiled for many texts as far as the budget allows.
pub(crate) fn read_pattern(
    alloc: Global,
    text: &str,
    question: Question,
    budget: &mut CompileBudget,
) -> Result<KnownPattern, AllocError>
    ensures { IfOk result (λ k. text_of k.text ≡ chars text.now) }
{
    let pattern = match Pattern::compiled(alloc, text, question, budget)? {
        Some(pattern) => Some(Arc::new(alloc, pattern)?),
        None => None,
    };
    let text = String::from_str(alloc, text)?;
    Ok(KnownPattern { text, pattern })
}
