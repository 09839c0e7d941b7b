//! Which numbers there may be.

/// Which numbers the documents and the literals of a query may have.
#[derive(Clone, Copy, Debug, PartialEq, Eq, Drop)]
pub enum Numbers {
    /// Whole numbers alone: of a document signed and unsigned ones of 64 bits, and of a query ones of at most
    /// 38 digits.
    Whole,
    /// Every number of JSON (RFC 8259, 6) of at most 1,000 digits and 9 digits of an exponent, exactly.
    Decimals,
}
