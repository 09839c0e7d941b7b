//! Why a query was not evaluated.

ghost use Rattle.std.specs.Prelude.{◌≡◌};
ghost use Rattle.jp_eval.specs.declared.fault.EvalFault.TheVariants.{Memory};

use std::alloc::AllocError;
use thiserror::Error;

/// Why a query was not evaluated.
#[derive(Clone, Copy, Debug, PartialEq, Eq, Drop, Error)]
pub enum EvalFault {
    /// A growth of memory was refused.
    #[error("memory")]
    Memory,
}

impl From<AllocError> for EvalFault {
    ghost from_gives = { λ _ e. e ≡ Memory };

    fn from(_e: AllocError) -> EvalFault {
        EvalFault::Memory
    }
}
