//! Why a text gives no tree.

ghost use Rattle.std.specs.Prelude.{◌≡◌};
ghost use Rattle.jp_pattern.specs.declared.fault.PatternFault.TheVariants.{Memory};

use std::alloc::{AllocError, AllocFailed};

/// Why a text gives no tree.
#[derive(Debug, Drop)]
pub enum PatternFault {
    /// The text spells no I-Regexp within the limits (RFC 9485, 3 and 8).
    NoPattern,
    /// Memory ran out.
    Memory,
}

impl From<AllocError> for PatternFault {
    ghost from_gives = { λ _ e. e ≡ Memory };

    fn from(_e: AllocError) -> PatternFault {
        PatternFault::Memory
    }
}

impl<T: Drop> From<AllocFailed<T>> for PatternFault {
    ghost from_gives = { λ _ e. e ≡ Memory };

    fn from(_e: AllocFailed<T>) -> PatternFault {
        PatternFault::Memory
    }
}
