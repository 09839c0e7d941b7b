//! The steps of a scan of a line through numbers and texts (RFC 8259, 6 and 7).

use crate::line_place::{Digits, LineNumber, LinePlace, LineText, Within};
use crate::line_reason::LineRule;
use crate::line_scanner::{Event, LineHalt, LineScanner, against};
use crate::long_number::long_length;

/// The characters of a number with this one behind them, or nothing where none is written so.
fn digits_after(digits: Digits, byte: u8) -> Option<Digits> {
    match (digits, byte) {
        (Digits::Minus, b'0') => Some(Digits::Zero),
        (Digits::Minus | Digits::Whole, b'0'..=b'9') => Some(Digits::Whole),
        (Digits::Zero | Digits::Whole, b'.') => Some(Digits::Point),
        (Digits::Point | Digits::Fraction, b'0'..=b'9') => Some(Digits::Fraction),
        (Digits::Zero | Digits::Whole | Digits::Fraction, b'e' | b'E') => Some(Digits::Letter),
        (Digits::Letter, b'+' | b'-') => Some(Digits::Sign),
        (Digits::Letter | Digits::Sign | Digits::Exponent, b'0'..=b'9') => Some(Digits::Exponent),
        _ => None,
    }
}

/// Whether a number may end behind these.
pub(crate) fn is_number(digits: Digits) -> bool {
    matches!(
        digits,
        Digits::Zero | Digits::Whole | Digits::Fraction | Digits::Exponent
    )
}

/// Whether no float is as large as the number, which the JSON crate then refuses.
fn is_too_large(number: &[u8]) -> bool {
    let read: Result<f64, _> = fast_float::parse(number);
    match read {
        Ok(float) => !float.is_finite(),
        Err(_) => false,
    }
}

/// Whether this follows `\` as an escape by itself.
fn is_short_escape(byte: u8) -> bool {
    matches!(byte, b'"' | b'\\' | b'/' | b'b' | b'f' | b'n' | b'r' | b't')
}

impl LineText {
    /// A text whose first quote stands there.
    pub(crate) fn new(is_name: bool, start: usize) -> LineText {
        LineText {
            is_name,
            within: Within::Bare,
            start,
            escape: start,
            half: None,
        }
    }
}

impl LineScanner<'_> {
    pub(crate) fn number(
        &mut self,
        number: LineNumber,
        at: usize,
        byte: u8,
    ) -> Result<Event, LineHalt> {
        if let Some(digits) = digits_after(number.digits, byte) {
            return self.go(LinePlace::Number(LineNumber { digits, ..number }));
        }
        if let (Digits::Zero, b'0'..=b'9') = (number.digits, byte) {
            return Err(against(at, LineRule::LeadingZero));
        }
        if !is_number(number.digits) {
            return Err(self.unexpected(at));
        }
        self.number_end(number, at)?;
        self.token(at, byte)
    }

    /// The number ends before that place.
    pub(crate) fn number_end(&mut self, number: LineNumber, at: usize) -> Result<(), LineHalt> {
        let written = self.line.get(number.start..at).unwrap_or(&[]);
        if !self.has_decimals && is_too_large(written) {
            let rule = match long_length(written) {
                Some(_) => LineRule::TooLong,
                None => LineRule::TooLarge,
            };
            return Err(against(number.start, rule));
        }
        self.place = LinePlace::Behind;
        Ok(())
    }

    pub(crate) fn text(&mut self, text: LineText, at: usize, byte: u8) -> Result<Event, LineHalt> {
        match text.within {
            Within::Bare => self.bare(text, at, byte),
            Within::Escape => self.escape(text, at, byte),
            Within::Unit { count, value } => match char::from(byte).to_digit(16) {
                Some(digit) => {
                    let value = value.saturating_mul(16).saturating_add(digit);
                    self.unit(text, count.saturating_add(1), value)
                }
                None => Err(self.unexpected(at)),
            },
        }
    }

    fn bare(&mut self, text: LineText, at: usize, byte: u8) -> Result<Event, LineHalt> {
        if byte == b'\\' {
            return self.go(LinePlace::Text(LineText {
                within: Within::Escape,
                escape: at,
                ..text
            }));
        }
        if let Some(start) = text.half {
            return Err(against(start, LineRule::HalfPair));
        }
        match byte {
            b'"' => self.text_end(text),
            0..=0x1f => Err(against(at, LineRule::Control(byte))),
            _ => Ok(Event::None),
        }
    }

    /// At the last quote.
    fn text_end(&mut self, text: LineText) -> Result<Event, LineHalt> {
        if text.is_name {
            self.place = LinePlace::Colon;
            return Ok(Event::Name(text.start));
        }
        self.go(LinePlace::Behind)
    }

    /// Behind a backslash.
    fn escape(&mut self, text: LineText, at: usize, byte: u8) -> Result<Event, LineHalt> {
        let within = match (byte, text.half) {
            (b'u', _) => Within::Unit { count: 0, value: 0 },
            (_, Some(start)) => return Err(against(start, LineRule::HalfPair)),
            _ if is_short_escape(byte) => Within::Bare,
            _ => return Err(self.unexpected(at)),
        };
        self.go(LinePlace::Text(LineText { within, ..text }))
    }

    /// Behind so many digits of an escape, which come to that.
    fn unit(&mut self, text: LineText, count: u8, value: u32) -> Result<Event, LineHalt> {
        if count < 4 {
            let within = Within::Unit { count, value };
            return self.go(LinePlace::Text(LineText { within, ..text }));
        }
        let half = match (text.half, value) {
            (None, 0xd800..=0xdbff) => Some(text.escape),
            (Some(_), 0xdc00..=0xdfff) => None,
            (Some(start), _) => return Err(against(start, LineRule::HalfPair)),
            (None, 0xdc00..=0xdfff) => return Err(against(text.escape, LineRule::HalfPair)),
            _ => None,
        };
        self.go(LinePlace::Text(LineText {
            within: Within::Bare,
            half,
            ..text
        }))
    }
}
