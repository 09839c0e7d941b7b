//! Names as they are written in a line, with escapes (RFC 8259, 7).

use jp_tokens::first_character;

/// Whether the text between the quotes of a name is written for that name. It is one without a fault.
pub(crate) fn is_written_for(written: &[u8], name: &str) -> bool {
    let Ok(written) = std::str::from_utf8(written) else {
        return false;
    };
    let mut rest = written;
    for c in name.chars() {
        match first_written(rest) {
            Some((first, more)) if first == c => rest = more,
            _ => return false,
        }
    }
    rest.is_empty()
}

/// The first character that is written, as itself or by an escape, and what is written behind it.
fn first_written(text: &str) -> Option<(char, &str)> {
    let (first, rest) = first_character(text)?;
    if first != '\\' {
        return Some((first, rest));
    }
    let (letter, rest) = first_character(rest)?;
    match letter {
        'u' => escaped(rest),
        'b' => Some(('\u{8}', rest)),
        't' => Some(('\t', rest)),
        'n' => Some(('\n', rest)),
        'f' => Some(('\u{c}', rest)),
        'r' => Some(('\r', rest)),
        _ => Some((letter, rest)),
    }
}

/// The character whose digits these are, behind `\u`.
fn escaped(text: &str) -> Option<(char, &str)> {
    let (unit, rest) = first_unit(text)?;
    if !matches!(unit, 0xd800..=0xdbff) {
        return Some((char::from_u32(unit)?, rest));
    }
    let (low, rest) = first_unit(rest.strip_prefix("\\u")?)?;
    let high = (unit & 0x3ff) << 10;
    let code = (high | low & 0x3ff).saturating_add(0x10000);
    Some((char::from_u32(code)?, rest))
}

/// The code unit of four hexadecimal digits.
fn first_unit(text: &str) -> Option<(u32, &str)> {
    let mut unit = 0u32;
    let mut rest = text;
    for _digit in 0..4 {
        let (digit, more) = first_character(rest)?;
        unit = unit.saturating_mul(16).saturating_add(digit.to_digit(16)?);
        rest = more;
    }
    Some((unit, rest))
}
