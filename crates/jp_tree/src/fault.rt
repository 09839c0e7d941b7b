//! Why a query text is refused.

ghost use Rattle.std.specs.Prelude.{◌≡◌};
ghost use Rattle.jp_tree.specs.declared.fault.QueryFault.TheVariants.{Memory};

use std::alloc::AllocError;
use thiserror::Error;

/// Why a query text is refused: the first of these that applies, in this order.
#[derive(Clone, Copy, Debug, PartialEq, Eq, Drop, Error)]
pub enum QueryFault {
    /// Brackets and parentheses are nested more than 64 deep.
    #[error("query: too deep")]
    TooDeep,
    /// The text is not well-formed (RFC 9535, 2.1).
    #[error("query: syntax")]
    Syntax,
    /// A number literal has a fraction or an exponent, where the numbers of a query are whole.
    #[error("query: fraction")]
    Fraction,
    /// An index or a slice number is outside -9007199254740991 to 9007199254740991
    /// (RFC 9535, 2.1), or a number literal is too long: it has more than 38 digits, or, where it may have a
    /// fraction and an exponent, more than 1,000, or an exponent of more than 9 digits.
    #[error("query: range")]
    Range,
    /// A function is unknown or not used as its type allows (RFC 9535, 2.4.3).
    #[error("query: type")]
    IllTyped,
    /// A growth of memory was refused.
    #[error("memory")]
    Memory,
}

impl From<AllocError> for QueryFault {
    ghost from_gives = { λ _ e. e ≡ Memory };

    fn from(_refused: AllocError) -> QueryFault {
        QueryFault::Memory
    }
}
