//! A sink that keeps nothing.

ghost use Rattle.std.specs.Prelude.{◌≡◌, None, false};

use crate::ends::{Broken, Sink};

/// A sink that takes all that it is given and keeps nothing of it, for who asks only how much that is.
#[derive(Clone, Copy, Debug)]
pub struct Nowhere {
    flushed: bool,
}

impl Nowhere {
    /// A sink to which nothing was written. It takes no memory.
    pub fn new() -> Nowhere
        ensures working { ⟦<Nowhere as Sink>⟧.failed result ≡ false }
    {
        Nowhere { flushed: true }
    }
}

impl Sink for Nowhere {
    ghost contents = { λ _. None };

    ghost failed = { λ _. false };

    ghost flushed = { λ s. s.flushed };

    fn write(&mut self, bytes: &[u8]) -> Result<usize, Broken> {
        self.flushed = false;
        Ok(bytes.len())
    }

    fn flush(&mut self) -> Result<(), Broken> {
        self.flushed = true;
        Ok(())
    }

    fn failed(&self) -> bool {
        false
    }
}
