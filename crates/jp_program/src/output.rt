//! The words for the forms of an answer, and which of them are of nodes or of values, or have fields.

ghost use Rattle.std.specs.Prelude.{◌≡◌, IfSome, IsNone};
ghost use Rattle.jp_run.specs.declared.output.Output.{Output as Form};
ghost use Rattle.jp_program.specs.Wanted.{has_fields, is_of_nodes, is_of_values, output_text};

use jp_run::Output;

/// The form that a word names.
pub(crate) fn output_of(word: &str) -> Option<Output>
    ensures some { IfSome result (λ o. word.now ≡ output_text o) }
    ensures none { IsNone result → (o : Form) → word.now ≡ output_text o → ⊥ }
{
    match word {
        "nodes" => Some(Output::Nodes),
        "values" => Some(Output::Values),
        "texts" => Some(Output::Texts),
        "raw" => Some(Output::Raw),
        "rows" => Some(Output::Rows),
        "lines" => Some(Output::Lines),
        _ => None,
    }
}

/// Whether a form is that of nodes.
pub(crate) fn is_of_nodes(output: Output) -> bool
    ensures { result ≡ is_of_nodes output }
{
    match output {
        Output::Nodes => true,
        Output::Values | Output::Texts | Output::Raw | Output::Rows | Output::Lines => false,
    }
}

/// Whether a form is one of values, each of which has an ending of its own.
pub(crate) fn is_of_values(output: Output) -> bool
    ensures { result ≡ is_of_values output }
{
    match output {
        Output::Values | Output::Texts | Output::Raw => true,
        Output::Nodes | Output::Rows | Output::Lines => false,
    }
}

/// Whether a form is that whose lines have fields.
pub(crate) fn has_fields(output: Output) -> bool
    ensures { result ≡ has_fields output }
{
    match output {
        Output::Rows => true,
        Output::Nodes | Output::Values | Output::Texts | Output::Raw | Output::Lines => false,
    }
}
