//! The links from the root to where a walk is, and the text of their path.

ghost use Rattle.std.specs.Prelude.{◌≡◌, ◌++◌, ◌∷◌, ◌-◌, [], length, take, OnOk, OnErr};
ghost use Rattle.std.specs.Prelude.{encode_utf8_all};
ghost use Rattle.jp_node.specs.Appended.{Extends};
ghost use Rattle.jp_node.specs.Links.{link_steps, link_bytes, links_bytes};
ghost use Rattle.jp_node.specs.inner.Made.{IsMade};
ghost use Rattle.jp_node.specs.Path.{path_text};

use crate::link::Link;
use crate::step::append_link;
use smallvec::SmallVec;
use std::alloc::{AllocError, Global};
use std::marker::Model;

/// Memory for the text of path stacks, one after another.
#[derive(Drop)]
pub struct Scratch {
    text: Vec<u8>,
    starts: Vec<usize>,
}

impl Scratch {
    /// No memory yet.
    pub fn new(alloc: Global) -> Scratch {
        Scratch {
            text: Vec::new(alloc),
            starts: Vec::new(alloc),
        }
    }
}

/// The links from the root to where a walk is: a stack, which can say its normalized path.
///
/// A path's text is made when it is asked for, and kept while its links stay.
#[derive(Drop)]
pub struct PathStack<'v> {
    // Eight lie within the path stack, so that the walk of most documents takes no memory for links.
    links: SmallVec<Link<'v>, 8>,
    /// The text of the first links, without the path's `$`.
    text: Vec<u8>,
    /// Where in the text each of those links begins.
    starts: Vec<usize>,
}

impl<'v> Model for PathStack<'v> {
    ghost use Rattle.std.specs.Prelude.{List};
    ghost use Rattle.jp_node.specs.declared.link.Link.{Link};
    ghost use Rattle.jp_node.specs.inner.Made.{IsMade};

    ghost Value = { List Link };

    ghost view = { λ t. t.links.items };

    ghost invariant = { λ t. IsMade t.links.items t.text.items t.starts.items };
}

impl<'v> PathStack<'v> {
    /// At the root. It takes no memory.
    pub fn new(alloc: Global) -> PathStack<'v>
        ensures { result ≡ [] }
    {
        PathStack::with_scratch(alloc, Scratch::new(alloc))
    }

    /// At the root, with scratch memory for its text. It takes no memory.
    pub fn with_scratch(alloc: Global, scratch: Scratch) -> PathStack<'v>
        ensures { result ≡ [] }
    {
        let Scratch {
            mut text,
            mut starts,
        } = scratch;
        text.clear();
        starts.clear();
        PathStack {
            links: SmallVec::new(alloc),
            text,
            starts,
        }
    }

    /// The scratch memory, for another path stack.
    pub fn into_scratch(self) -> Scratch {
        Scratch {
            text: self.text,
            starts: self.starts,
        }
    }

    /// Goes down a link.
    pub fn push(&mut self, link: Link<'v>) -> Result<(), AllocError>
        ensures ok { OnOk result (self.new ≡ self.old ++ link.entry ∷ []) }
        ensures err { OnErr result (self.new ≡ self.old) }
    {
        self.links.push(link)?;
        Ok(())
    }

    /// Goes back up the last link, where there is one.
    pub fn pop(&mut self)
        ensures { self.new ≡ take (length self.old - 1) self.old }
    {
        forget_last(self.links.as_slice(), &mut self.text, &mut self.starts);
        self.links.pop();
    }

    /// The links, from the root on.
    pub fn links(&self) -> &[Link<'v>]
        ensures { result.now ≡ self.now }
    {
        self.links.as_slice()
    }

    /// Appends the bytes of the normalized path. After an `AllocError` the path stack is where it was.
    pub fn append_path(&mut self, out: &mut Vec<u8>) -> Result<(), AllocError>
        ensures same { self.new ≡ self.old }
        ensures ok { OnOk result (out.new.items
            ≡ out.old.items ++ encode_utf8_all (path_text (link_steps self.old))) }
        ensures kept { Extends out.old.items out.new.items }
    {
        make(self.links.as_slice(), &mut self.text, &mut self.starts)?;
        out.push(b'$')?;
        out.extend_from_slice(self.text.as_slice())?;
        Ok(())
    }
}

/// Takes off the text of the last link, where it was made.
fn forget_last(links: &[Link<'_>], text: &mut Vec<u8>, starts: &mut Vec<usize>)
    requires { IsMade links.now text.old.items starts.old.items }
    ensures { IsMade (take (length links.now - 1) links.now) text.new.items starts.new.items }
{
    if starts.len() < links.len() {
        return;
    }
    if let Some(start) = starts.pop() {
        text.truncate(start);
    }
}

/// Makes the text of the links that have none yet.
fn make(links: &[Link<'_>], text: &mut Vec<u8>, starts: &mut Vec<usize>) -> Result<(), AllocError>
    requires { IsMade links.now text.old.items starts.old.items }
    ensures made { IsMade links.now text.new.items starts.new.items }
    ensures ok { OnOk result (text.new.items ≡ links_bytes links.now) }
{
    for place in starts.len()..links.len() {
        make_one(links[place], text, starts)?;
    }
    Ok(())
}

/// Makes the text of one more link, or leaves all as it was.
fn make_one(link: Link<'_>, text: &mut Vec<u8>, starts: &mut Vec<usize>) -> Result<(), AllocError>
    ensures text { OnOk result (text.new.items ≡ text.old.items ++ link_bytes link.entry) }
    ensures starts { OnOk result (starts.new.items ≡ starts.old.items ++ length text.old.items ∷ []) }
    ensures text_kept { OnErr result (text.new.items ≡ text.old.items) }
    ensures starts_kept { OnErr result (starts.new.items ≡ starts.old.items) }
{
    // Before the text is made, so that nothing can be refused once it stands.
    starts.reserve(1)?;
    let start = text.len();
    match append_link(link, text) {
        Ok(()) => {
            starts.push_reserved(start);
            Ok(())
        }
        Err(error) => {
            text.truncate(start);
            Err(error)
        }
    }
}
