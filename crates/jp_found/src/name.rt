//! Names that are borrowed.

ghost use Rattle.std.specs.Prelude.{◌≡◌, IsUtf8};

/// A name, borrowed from the document or from the query.
#[derive(Clone, Copy, PartialEq, Eq, PartialOrd, Ord)]
pub struct Name<'v> {
    /// Its text.
    pub text: &'v str,
    ghost utf8: { ∥ IsUtf8 text.now ∥₁ },
}

impl<'v> Name<'v> {
    /// The name of this text.
    pub(crate) fn new(text: &'v str) -> Name<'v>
        ensures { result.text.now ≡ text.now }
    {
        Name { text }
    }
}
