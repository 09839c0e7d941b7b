//! Whether a line holds a number that is not whole, from the nodes that the kit has read.
//!
//! Of members with one name the last counts, so a number counts where no later member covers one that it
//! stands in. What stands beside a number that was found is passed over until one does.

ghost use Rattle.std.specs.Prelude.{◌≡◌, ◌<◌, map, IfOk, IfSome, OnOk};
ghost use Rattle.json.specs.Tape.{node_token};
ghost use Rattle.jp_flat.specs.inner.Decimals.{place_of, opened, closed, named, counted, after};
ghost use Rattle.jp_flat.specs.inner.Decimals.{holds_decimal};

use crate::digits::is_whole_text;
use json::Node;
use std::alloc::{AllocError, Global};

/// Where a search for such a number stands.
#[derive(Drop)]
struct Search<'a> {
    /// Whether one was found, and then how many brackets were opened since in what stands around it.
    found: Option<usize>,
    /// The name of the member here, or around what was found.
    name: &'a str,
    /// The names around that one, the innermost last.
    above: Vec<&'a str>,
}

impl<'a> Search<'a> {
    /// A bracket opens.
    ///
    /// `AllocError` if a growth was refused.
    fn open(&mut self) -> Result<(), AllocError>
        requires { IfSome self.old.found (λ n. n < 9223372036854775808) }
        ensures { OnOk result (place_of self.new ≡ opened (place_of self.old)) }
    {
        match self.found {
            Some(count) => self.found = Some(count + 1),
            None => {
                self.above.push(self.name)?;
                self.name = "";
            }
        }
        Ok(())
    }

    /// A bracket closes.
    fn close(&mut self)
        ensures { place_of self.new ≡ closed (place_of self.old) }
    {
        match self.found {
            Some(count) if count > 0 => self.found = Some(count - 1),
            _ => self.name = self.above.pop().unwrap_or(""),
        }
    }

    /// A member of this name begins, which covers one before it of the same name.
    fn enter(&mut self, name: &'a str)
        ensures { place_of self.new ≡ named name.now (place_of self.old) }
    {
        match self.found {
            None => self.name = name,
            Some(0) => {
                if self.name == name {
                    self.found = None;
                }
            }
            Some(_) => {}
        }
    }

    /// A number of this text stands here.
    fn count(&mut self, text: &str)
        ensures { place_of self.new ≡ counted text.now (place_of self.old) }
    {
        if self.found.is_none() && !is_whole_text(text) {
            self.found = Some(0);
        }
    }

    /// Passes a node.
    ///
    /// `AllocError` if a growth was refused.
    fn pass(&mut self, node: &Node<'a>) -> Result<(), AllocError>
        requires { IfSome self.old.found (λ n. n < 9223372036854775808) }
        ensures { OnOk result (place_of self.new ≡ after (node_token node.now) (place_of self.old)) }
    {
        match node {
            Node::Object(_) | Node::Array(_) => self.open()?,
            Node::EndObject | Node::EndArray => self.close(),
            Node::Key(name) => self.enter(*name),
            Node::Number(text) => self.count(*text),
            Node::String(_) | Node::Bool(_) | Node::Null => {}
        }
        Ok(())
    }
}

/// Whether the nodes hold such a number. `false` says nothing where a later member covers one: another may
/// stand beside it.
///
/// `AllocError` if a growth was refused.
pub(crate) fn has_decimal(alloc: Global, nodes: &[Node<'_>]) -> Result<bool, AllocError>
    ensures { IfOk result (λ b. b ≡ holds_decimal (map node_token nodes.now)) }
{
    let mut search = Search {
        found: None,
        name: "",
        above: Vec::new(alloc),
    };
    for node in nodes {
        search.pass(node)?;
    }
    Ok(search.found.is_some())
}
