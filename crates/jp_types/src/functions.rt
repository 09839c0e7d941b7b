//! The functions and their types: those of RFC 9535 (2.4.1 to 2.4.8), and this project's own, `xor` and
//! `distinct`.

ghost use Rattle.std.specs.Prelude.{◌≡◌, Some, map, option_map};
ghost use Rattle.std.specs.Str.{chars};
ghost use Rattle.jp_types.specs.Functions as functions;
ghost use Rattle.jp_types.specs.Kinds.{kind_of, function_of};

/// The types of the function type system (RFC 9535, 2.4.1).
#[derive(Clone, Copy)]
pub enum FunctionType {
    /// A value, or nothing.
    Value,
    /// True or false.
    Logical,
    /// A list of nodes.
    Nodes,
}

/// A function of RFC 9535 (2.4.4 to 2.4.8), or of this project's own.
#[derive(Clone, Copy, Debug, PartialEq, Eq)]
pub enum Function {
    /// How long a text, an array or an object is.
    Length,
    /// How many nodes there are.
    Count,
    /// Whether the whole text is in a pattern's language.
    Match,
    /// Whether some part of the text is in a pattern's language.
    Search,
    /// The value of the only node.
    Value,
    /// Whether exactly one of two is true. It is this project's own.
    Xor,
    /// The nodes, each location once. It is this project's own.
    Distinct,
}

/// The function of this name, if it is one. It takes no memory.
pub fn function_named(name: &str) -> Option<Function>
    ensures { option_map function_of result ≡ functions.function_named (chars name.now) }
{
    match name {
        "length" => Some(Function::Length),
        "count" => Some(Function::Count),
        "match" => Some(Function::Match),
        "search" => Some(Function::Search),
        "value" => Some(Function::Value),
        "xor" => Some(Function::Xor),
        "distinct" => Some(Function::Distinct),
        _ => None,
    }
}

/// The name of a function.
pub fn name_of(function: Function) -> &'static str
    ensures { functions.function_named (chars result.now) ≡ Some (function_of function) }
{
    match function {
        Function::Length => "length",
        Function::Count => "count",
        Function::Match => "match",
        Function::Search => "search",
        Function::Value => "value",
        Function::Xor => "xor",
        Function::Distinct => "distinct",
    }
}

/// The types of a function's parameters, in order (RFC 9535, 2.4.4 to 2.4.8). It takes no memory.
pub fn parameters(function: Function) -> &'static [FunctionType]
    ensures { map kind_of result.now ≡ functions.parameters (function_of function) }
{
    match function {
        Function::Length => &[FunctionType::Value],
        Function::Count | Function::Value | Function::Distinct => &[FunctionType::Nodes],
        Function::Match | Function::Search => &[FunctionType::Value, FunctionType::Value],
        Function::Xor => &[FunctionType::Logical, FunctionType::Logical],
    }
}

/// The type of what a function gives (RFC 9535, 2.4.4 to 2.4.8).
pub fn result_type(function: Function) -> FunctionType
    ensures { kind_of result ≡ functions.result_type (function_of function) }
{
    match function {
        Function::Length | Function::Count | Function::Value => FunctionType::Value,
        Function::Match | Function::Search | Function::Xor => FunctionType::Logical,
        Function::Distinct => FunctionType::Nodes,
    }
}
