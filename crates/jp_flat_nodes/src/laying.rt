//! What the kit has read of a line, laid as nodes whose texts stand one behind another in a text of their
//! own.

ghost use Rattle.std.specs.Prelude.{◌≡◌, ◌≤◌, IfOk, OnOk, length, map};
ghost use Rattle.json.specs.Tape.{Linked, node_token};
ghost use Rattle.jp_flat_nodes.specs.Nodes.{AreLinked, AreWithin, source, tokens_at};
ghost use Rattle.jp_flat_nodes.specs.inner.Laid.{EndsWithin, IsKept, IsLaid};

use crate::limits::MAX_TEXT;
use crate::node::{FlatNode, FlatNodes};
use json::Node as Taped;
use std::alloc::AllocError;

/// Where a text stands, and how many bytes it has.
#[derive(Clone, Copy, Drop)]
struct Kept {
    from: u32,
    count: u32,
}

/// Puts a text behind the others.
///
/// `AllocError` if a growth was refused, or where there is more of it than any line has.
fn keep(text: &str, texts: &mut Vec<u8>) -> Result<Kept, AllocError>
    ensures { IfOk result (λ kept. IsKept texts.old.items texts.new.items text.now kept.from kept.count) }
{
    let from = texts.len();
    if from > MAX_TEXT || text.len() > MAX_TEXT {
        return Err(AllocError);
    }
    texts.extend_from_slice(text.as_bytes())?;
    Ok(Kept {
        from: from as u32,
        count: text.len() as u32,
    })
}

/// The node that stands for one of the kit's, with its text put behind the others.
///
/// `AllocError` as of `keep`.
fn laid(node: &Taped<'_>, texts: &mut Vec<u8>) -> Result<FlatNode, AllocError>
    requires { EndsWithin 268435456 node.now }
    ensures { IfOk result (λ own. IsLaid texts.old.items texts.new.items node.now own) }
{
    match node {
        Taped::Object(end) => Ok(FlatNode::Object(*end as u32)),
        Taped::EndObject => Ok(FlatNode::EndObject),
        Taped::Array(end) => Ok(FlatNode::Array(*end as u32)),
        Taped::EndArray => Ok(FlatNode::EndArray),
        Taped::Key(text) => {
            let kept = keep(text, texts)?;
            Ok(FlatNode::EscapedKey(kept.from, kept.count))
        }
        Taped::String(text) => {
            let kept = keep(text, texts)?;
            Ok(FlatNode::Escaped(kept.from, kept.count))
        }
        Taped::Number(text) => {
            let kept = keep(text, texts)?;
            Ok(FlatNode::Number(kept.from, kept.count))
        }
        Taped::Bool(truth) => Ok(FlatNode::Truth(*truth)),
        Taped::Null => Ok(FlatNode::Null),
    }
}

/// Lays the nodes of a tape: with their texts and numbers in `texts`, they are its tokens.
///
/// `AllocError` if a growth was refused, or where there is more text than any line has.
pub fn lay(tape: &[Taped<'_>], out: &mut FlatNodes) -> Result<(), AllocError>
    requires few { length tape.now ≤ 268435456 }
    requires linked { Linked (map node_token tape.now) 0 tape.now }
    ensures tokens { OnOk result (tokens_at (source out.new.texts.items out.new.texts.items)
        out.new.nodes.items ≡ map node_token tape.now) }
    ensures linked { OnOk result (AreLinked (map node_token tape.now) out.new.nodes.items) }
    ensures within { OnOk result (AreWithin (source out.new.texts.items out.new.texts.items)
        out.new.nodes.items) }
{
    out.texts.clear();
    out.nodes.clear();
    out.nodes.reserve(tape.len())?;
    for node in tape {
        let own = laid(node, &mut out.texts)?;
        out.nodes.push(own)?;
    }
    Ok(())
}
