//! Signatures of the characters of ASCII: equivalent ones have the same, and others mostly do not.

use crate::expressions::Expression;
use crate::letters::{Letters, has_letter};

/// For each character of ASCII, by its code, a hash of which sets of the pattern hold it.
///
/// Classes are found by it, and then checked, so a hash that is the same by chance costs a column and no
/// answer.
pub(crate) fn signatures_of(root: &Expression) -> [u64; 128] {
    let mut signatures = [0u64; 128];
    sign(root, &mut signatures);
    signatures
}

/// Takes the sets of the expression into the signatures.
#[cycle(sign)]
fn sign(expression: &Expression, signatures: &mut [u64; 128]) {
    match expression {
        Expression::Set(set) => sign_set(set, signatures),
        Expression::Group { sub, .. } => sign(sub, signatures),
        Expression::Pieces { pieces, .. } => sign_all(pieces, signatures),
        Expression::Branches { before, last, .. } => {
            sign_all(before, signatures);
            sign(last, signatures);
        }
        Expression::Repeat { atom, .. } => sign(atom, signatures),
        Expression::Plus { atom, .. } => sign(atom, signatures),
    }
}

/// The same of each of the expressions.
#[cycle(sign)]
fn sign_all(expressions: &[Expression], signatures: &mut [u64; 128]) {
    for expression in expressions {
        sign(expression, signatures);
    }
}

/// Takes one set into the signatures.
fn sign_set(set: &Letters, signatures: &mut [u64; 128]) {
    for code in 0u8..128 {
        let holds = has_letter(set, char::from(code));
        let signature = signatures[usize::from(code)];
        signatures[usize::from(code)] = mix(signature, u64::from(holds));
    }
}

/// A number that differs, mostly, where one of the two does.
pub(crate) fn mix(hash: u64, next: u64) -> u64 {
    (hash.rotate_left(5) ^ next).wrapping_mul(0x9e37_79b9_7f4a_7c15)
}
