//! What opens inputs by their names.

ghost use Rattle.std.specs.Prelude.{◌≡◌, ℕ, List, Option, is_err};
ghost use Rattle.jp_run.specs.Counts.{counted};
ghost use Rattle.jp_program.specs.Inputs.{counted_if};

use jp_run::{Broken, Supply};
use std::alloc::{AllocError, Global};

/// What opens inputs by their names, each in the place of another.
///
/// An input that cannot be opened is a source that has failed before its first read.
pub trait Inputs<S: Supply> {
    /// The bytes that a name holds, where they are known. `-` is standard input.
    ghost holds: { Self → List ℕ → Option (List ℕ) };

    /// The number of calls of `open` so far.
    ghost opens: { Self → ℕ };

    /// The number of inputs that had failed when another was opened in their place.
    ghost broken: { Self → ℕ };

    /// Opens the input of this name in the place of another, which is closed.
    ///
    /// `Broken` if it cannot be opened.
    fn open(&mut self, name: &str, source: &mut S) -> Result<(), Broken>
        ensures bytes { S.remaining source.new ≡ holds self.old name.now }
        ensures failed { S.failed source.new ≡ is_err result }
        ensures unread { S.reads source.new ≡ 0 }
        ensures ungiven { S.given source.new ≡ 0 }
        ensures opens { opens self.new ≡ counted (opens self.old) 1 }
        ensures broken { broken self.new ≡ counted_if (S.failed source.old) (broken self.old) }
        ensures same { holds self.new ≡ holds self.old };

    /// The number of calls of `open` so far, which stops at 18446744073709551615.
    fn opens(&self) -> u64
        ensures { result ≡ opens self.now };

    /// Why the source could not be opened, or not be read, in the system's words; none where that is not
    /// known. No clause speaks of it. `AllocError` if a growth was refused.
    fn reason(&self, alloc: Global, source: &S) -> Result<Option<String>, AllocError>;
}
