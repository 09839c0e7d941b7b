//! Classes of equivalent characters: a pattern does not tell those of one class apart.

ghost use Rattle.std.specs.Prelude.{◌<◌, ◌≤◌, IfOk};
ghost use Rattle.jp_automaton.specs.inner.Equivalence.{Equivalent, AreByteClasses};
ghost use Rattle.jp_automaton.specs.Expressions.{unrolled_in};
ghost use Rattle.jp_automaton.specs.declared.candidate.Candidate.TheVariants as candidate;

use crate::candidate::Candidate;
use crate::equivalence::are_equivalent;
use crate::expressions::Expression;
use crate::signatures::signatures_of;
use std::alloc::{AllocError, Global};

/// Which characters are equivalent to a pattern, as columns of a DFA see them.
#[derive(Drop)]
pub struct ByteClasses {
    /// For each character of ASCII, by its code, the representative of its class, which is not above it.
    pub first: Vec<u8>,
    /// Whether all that are not of ASCII are equivalent.
    pub past_ascii: bool,
}

impl ByteClasses {
    /// How many classes there are.
    pub(crate) fn count(&self) -> u64 {
        let mut count = 1;
        for (code, first) in self.first.iter().enumerate() {
            if code == usize::from(*first) {
                count = u64::saturating_add(count, 1);
            }
        }
        count
    }
}

/// The classes of the characters of ASCII, and whether the others are one.
///
/// # Errors
///
/// Memory ran out.
pub(crate) fn make_byte_classes(alloc: Global, root: &Expression) -> Result<ByteClasses, AllocError>
    ensures { IfOk result (λ classes. AreByteClasses (unrolled_in root.now) classes) }
{
    let signatures = signatures_of(root);
    let mut first = Vec::new(alloc);
    for code in 0u8..128 {
        first.push(first_equivalent(root, &signatures, code))?;
    }
    let past_ascii = are_equivalent(root, Candidate::PastAscii);
    Ok(ByteClasses { first, past_ascii })
}

/// The first character that has the signature of this one, where they are equivalent, or else this one.
fn first_equivalent(root: &Expression, signatures: &[u64; 128], code: u8) -> u8
    requires { code < 128 }
    ensures first { result ≤ code }
    ensures equivalent { Equivalent (unrolled_in root.now) (candidate.Both result code) }
{
    let first = first_alike(signatures, code);
    // Signatures may be the same by chance, so the sets are asked; one question for each character.
    if are_equivalent(root, Candidate::Both(char::from(first), char::from(code))) {
        first
    } else {
        code
    }
}

/// The first character that has the signature of this one.
fn first_alike(signatures: &[u64; 128], code: u8) -> u8
    requires { code < 128 }
    ensures { result ≤ code }
{
    for other in 0..code {
        if signatures[usize::from(other)] == signatures[usize::from(code)] {
            return other;
        }
    }
    code
}
