//! Which calls are well-typed (RFC 9535, 2.4.3), their arguments taken for themselves.

ghost use Rattle.std.specs.Prelude.{◌≡◌, map, option_map};
ghost use Rattle.jp_tree.specs.Tree as tree;
ghost use Rattle.jp_tree.specs.PartViews.{argument_of, arguments_of, call_of};
ghost use Rattle.jp_types.specs.Kinds.{kind_of, function_of};
ghost use Rattle.jp_types.specs.Typing as typing;

use crate::functions::{Function, FunctionType, function_named, parameters, result_type};
use jp_tree::{Argument, Call, is_singular};

/// The type of what a call gives, where its function is known.
fn type_of_call(call: &Call) -> Option<FunctionType>
    ensures { option_map kind_of result ≡ typing.type_of_call (call_of call.now) }
{
    function_named(call.name.as_str()).map(result_type)
}

/// Whether what a call gives may stand where this type is asked for.
pub(crate) fn serves_as(kind: FunctionType, call: &Call) -> bool
    ensures { result ≡ typing.serves_as (kind_of kind) (typing.type_of_call (call_of call.now)) }
{
    matches!(
        (kind, type_of_call(call)),
        (FunctionType::Value, Some(FunctionType::Value))
            | (FunctionType::Nodes, Some(FunctionType::Nodes))
            | (
                FunctionType::Logical,
                Some(FunctionType::Logical | FunctionType::Nodes)
            )
    )
}

/// Whether the argument may be given for a parameter of this type.
fn fits(kind: FunctionType, argument: &Argument) -> bool
    ensures { result ≡ typing.fits (kind_of kind) (argument_of argument.now) }
{
    match argument {
        Argument::Literal(_) => matches!(kind, FunctionType::Value),
        Argument::Query(query) => !matches!(kind, FunctionType::Value) || is_singular(query),
        Argument::Logical(_) => matches!(kind, FunctionType::Logical),
        Argument::Call(call) => serves_as(kind, call),
    }
}

/// Whether there are as many arguments as parameters, and each fits its own.
fn all_fit(kinds: &[FunctionType], arguments: &[Argument]) -> bool
    ensures { result ≡ typing.all_fit (map kind_of kinds.now) (tree.arguments (arguments_of arguments.now)) }
{
    kinds.len() == arguments.len()
        && kinds
            .iter()
            .zip(arguments)
            .all(|(kind, argument)| fits(*kind, argument))
}

/// Whether the function is known and the arguments fit its parameters.
pub(crate) fn fits_parameters(function: Option<Function>, arguments: &[Argument]) -> bool
    ensures { result ≡ typing.fits_parameters (option_map function_of function)
        (tree.arguments (arguments_of arguments.now)) }
{
    match function {
        None => false,
        Some(function) => all_fit(parameters(function), arguments),
    }
}
