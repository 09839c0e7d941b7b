//! The steps of a scan through numbers, texts in quotes and words (RFC 9535, 2.3.1 and 2.3.5.1).

use crate::expected::{behind_literal, behind_number};
use crate::functions::{WORDS, is_literal, may_begin, may_call, parameter, takes_literal};
use crate::place::{
    BegunNumber, Called, NumberOf, NumberStage, Open, QuoteStage, Quoted, ScanPlace, Side, Unit,
    Word,
};
use crate::reason::{Expected, Reason, Rule};
use crate::scanner::{Halt, Scanner};
use jp_number::{MAX_DIGITS, MAX_EXPONENT_DIGITS, Numbers};
use jp_types::{MAX_INDEX, MAX_WHOLE_DIGITS, function_named};

/// The size of a number with one more digit.
fn grown(what: NumberOf, size: u64, c: char) -> u64 {
    match what {
        NumberOf::Literal(_) => size.saturating_add(1),
        _ => size
            .saturating_mul(10)
            .saturating_add(c.to_digit(10).unwrap_or(0) as u64),
    }
}

/// Whether some number in its range begins with these characters.
fn is_in_range(number: BegunNumber, numbers: Numbers) -> bool {
    match (number.what, numbers) {
        (NumberOf::Literal(_), Numbers::Whole) => number.size <= MAX_WHOLE_DIGITS as u64,
        (NumberOf::Literal(_), Numbers::Decimals) => {
            let most = if number.form.wants_digit() {
                MAX_DIGITS - 1
            } else {
                MAX_DIGITS
            };
            number.size <= most as u64 && number.exponent <= MAX_EXPONENT_DIGITS as u64
        }
        _ => number.size as i128 <= MAX_INDEX,
    }
}

/// The place where such a number begins, and the rule for its size.
fn number_place(what: NumberOf, numbers: Numbers) -> (ScanPlace, Rule) {
    match (what, numbers) {
        (NumberOf::Literal(side), Numbers::Whole) => (ScanPlace::Operand(side), Rule::LiteralRange),
        (NumberOf::Literal(side), Numbers::Decimals) => (
            ScanPlace::Operand(side),
            Rule::DecimalRange,
        ),
        (NumberOf::Index, _) => (ScanPlace::Selector, Rule::IndexRange),
        (NumberOf::Past, _) => (ScanPlace::Past, Rule::IndexRange),
        (NumberOf::Step, _) => (ScanPlace::Step, Rule::IndexRange),
    }
}

/// The form behind one digit more, or nothing where none may follow.
fn form_after_digit(number: BegunNumber, c: char) -> Option<NumberStage> {
    match (number.form, number.what, c) {
        (NumberStage::Minus, NumberOf::Literal(_), '0') => Some(NumberStage::Zero),
        (NumberStage::Minus, _, '0') | (NumberStage::Zero, _, _) => None,
        (NumberStage::Minus | NumberStage::Digits, _, _) => Some(NumberStage::Digits),
        (NumberStage::Point | NumberStage::Fraction, _, _) => Some(NumberStage::Fraction),
        (NumberStage::Letter | NumberStage::Sign | NumberStage::Exponent, _, _) => Some(
            NumberStage::Exponent,
        ),
    }
}

/// The form of a literal behind this mark of a fraction or an exponent, or nothing where it is none or may
/// not follow.
fn form_after_mark(form: NumberStage, c: char) -> Option<NumberStage> {
    match (form, c) {
        (NumberStage::Zero | NumberStage::Digits, '.') => Some(NumberStage::Point),
        (NumberStage::Zero | NumberStage::Digits | NumberStage::Fraction, 'e' | 'E') => Some(
            NumberStage::Letter,
        ),
        (NumberStage::Letter, '+' | '-') => Some(NumberStage::Sign),
        _ => None,
    }
}

fn is_function_character(c: char) -> bool {
    c.is_ascii_lowercase() || c == '_' || c.is_ascii_digit()
}

/// The unit and the count of its digits behind one digit more, or nothing where none is written so.
fn digits_after(unit: Unit, count: u8, c: char) -> Option<(Unit, u8)> {
    if !c.is_ascii_hexdigit() {
        return None;
    }
    match (unit, count, c) {
        (Unit::Scalar, 0, 'd' | 'D') => Some((Unit::Lead, 1)),
        (Unit::Lead, _, '0'..='7') => Some((Unit::Scalar, 2)),
        (Unit::Lead, _, '8' | '9' | 'a' | 'b' | 'A' | 'B') => Some((Unit::High, 2)),
        (Unit::Lead, _, _) => None,
        (Unit::Low, 0, 'd' | 'D') | (Unit::Low, 1, 'c'..='f' | 'C'..='F') => {
            Some((Unit::Low, count.saturating_add(1)))
        }
        (Unit::Low, 0 | 1, _) => None,
        _ => Some((unit, count.saturating_add(1))),
    }
}

/// Where the scan stands behind so many digits of the unit.
fn behind_digits(unit: Unit, count: u8) -> QuoteStage {
    match (unit, count) {
        (_, 0..=3) => QuoteStage::Digits(unit, count),
        (Unit::High, _) => QuoteStage::Half,
        _ => QuoteStage::Bare,
    }
}

/// Where the scan stands in quotes behind one character more, which does not end them; or nothing where it
/// may not stand there.
fn part_after(part: QuoteStage, quote: char, c: char) -> Option<QuoteStage> {
    match part {
        QuoteStage::Bare if c == '\\' => Some(QuoteStage::Escape),
        QuoteStage::Bare if c >= ' ' => Some(QuoteStage::Bare),
        QuoteStage::Bare => None,
        QuoteStage::Escape if c == 'u' => Some(QuoteStage::Digits(Unit::Scalar, 0)),
        QuoteStage::Escape if c == quote || matches!(c, 'b' | 'f' | 'n' | 'r' | 't' | '/' | '\\') =>
            { Some(QuoteStage::Bare) }
        QuoteStage::Escape => None,
        QuoteStage::Digits(unit, count) => {
            let (unit, count) = digits_after(unit, count, c)?;
            Some(behind_digits(unit, count))
        }
        QuoteStage::Half if c == '\\' => Some(QuoteStage::HalfEscape),
        QuoteStage::HalfEscape if c == 'u' => Some(QuoteStage::Digits(Unit::Low, 0)),
        QuoteStage::Half | QuoteStage::HalfEscape => None,
    }
}

impl Scanner {
    /// At the first character of a number.
    pub(crate) fn number_start(&mut self, what: NumberOf, at: usize, c: char) -> Result<(), Halt> {
        let (form, size) = match c {
            '-' => (NumberStage::Minus, 0),
            '0' => (NumberStage::Zero, 1),
            _ => (NumberStage::Digits, grown(what, 0, c)),
        };
        self.go(ScanPlace::BegunNumber(BegunNumber {
            what,
            form,
            start: at,
            size,
            exponent: 0,
        }))
    }

    pub(crate) fn number(&mut self, number: BegunNumber, at: usize, c: char) -> Result<(), Halt> {
        if c.is_ascii_digit() {
            return self.digit(number, at, c);
        }
        match (number.what, form_after_mark(number.form, c)) {
            (NumberOf::Literal(side), Some(form)) => match self.numbers {
                Numbers::Whole => Err(self.against(
                    number.start,
                    ScanPlace::Operand(side),
                    Rule::Whole,
                )),
                Numbers::Decimals => self.go_on_number(BegunNumber { form, ..number }),
            },
            _ if number.form.wants_digit() => Err(self.unexpected(at)),
            _ => {
                self.place = behind_number(number.what);
                self.behind(at, c)
            }
        }
    }

    fn digit(&mut self, number: BegunNumber, at: usize, c: char) -> Result<(), Halt> {
        let Some(form) = form_after_digit(number, c) else {
            return Err(self.unexpected(at));
        };
        let in_exponent = matches!(form, NumberStage::Exponent);
        self.go_on_number(BegunNumber {
            form,
            size: grown(number.what, number.size, c),
            exponent: number.exponent.saturating_add(in_exponent as u64),
            ..number
        })
    }

    /// Goes on in the number, unless it is out of its range.
    fn go_on_number(&mut self, number: BegunNumber) -> Result<(), Halt> {
        if is_in_range(number, self.numbers) {
            return self.go(ScanPlace::BegunNumber(number));
        }
        let (place, rule) = number_place(number.what, self.numbers);
        Err(self.against(number.start, place, rule))
    }

    pub(crate) fn quoted(&mut self, quoted: Quoted, at: usize, c: char) -> Result<(), Halt> {
        match quoted.part {
            QuoteStage::Bare if c == quoted.quote => self.go(behind_quotes(quoted.literal)),
            _ => match part_after(quoted.part, quoted.quote, c) {
                Some(part) => self.go(ScanPlace::Quoted(Quoted { part, ..quoted })),
                None => Err(self.unexpected(at)),
            },
        }
    }

    /// At the first letter of a word.
    pub(crate) fn word_start(&mut self, side: Side, at: usize, c: char) -> Result<(), Halt> {
        self.word.clear();
        self.front.clear();
        self.letter(
            Word {
                side,
                start: at,
                lost: None,
            },
            at,
            c,
        )
    }

    pub(crate) fn word(&mut self, word: Word, at: usize, c: char) -> Result<(), Halt> {
        if is_function_character(c) {
            self.letter(word, at, c)
        } else if c == '(' {
            self.call(word, at)
        } else if takes_literal(word.side) && is_literal(self.word.as_str()) {
            self.place = behind_literal(word.side);
            self.behind(at, c)
        } else {
            Err(self.word_halt(word, at))
        }
    }

    /// Whether some word that may stand there goes on by the letter.
    fn goes_on(&self, side: Side, c: char) -> bool {
        let opens = self.may_open();
        for word in &WORDS {
            if let Some(rest) = word.strip_prefix(self.front.as_str()) {
                if rest.starts_with(c) && may_begin(side, opens, word) {
                    return true;
                }
            }
        }
        false
    }

    fn letter(&mut self, word: Word, at: usize, c: char) -> Result<(), Halt> {
        self.word.push(c)?;
        let lost = match word.lost {
            None if self.goes_on(word.side, c) => {
                self.front.push(c)?;
                None
            }
            None => Some(at),
            lost => lost,
        };
        self.go(ScanPlace::Word(Word { lost, ..word }))
    }

    /// A word that has ended and is none, at the last place where one could still stand.
    pub(crate) fn word_halt(&mut self, word: Word, at: usize) -> Halt {
        if matches!(word.side, Side::Nodes) && is_literal(self.word.as_str()) {
            return self.wrong_argument(at);
        }
        if self.front.is_empty() {
            self.place = ScanPlace::Operand(word.side);
        }
        if is_literal(self.front.as_str()) {
            self.place = behind_literal(word.side);
        }
        let mark = word.lost.unwrap_or(at);
        if function_named(self.front.as_str()).is_some() {
            return Halt::At(mark, Reason::Expected(Expected::Arguments));
        }
        self.unexpected(mark)
    }

    /// At the parenthesis behind a word.
    fn call(&mut self, word: Word, at: usize) -> Result<(), Halt> {
        let place = ScanPlace::Operand(word.side);
        let Some(function) = function_named(self.word.as_str()) else {
            return Err(self.against(word.start, place, Rule::NoFunction));
        };
        if !may_call(word.side, function) {
            return Err(match word.side {
                Side::Negated => self.against(word.start, place, Rule::Compared(function)),
                Side::Right => self.against(word.start, place, Rule::Alone(function)),
                _ => self.wrong_argument(at),
            });
        }
        if !self.may_open() {
            return Err(self.against(word.start, place, Rule::TooDeep));
        }
        let call = Called {
            function,
            side: word.side,
            start: word.start,
        };
        self.opens(
            at,
            Open::Call {
                call,
                second: false,
            },
            ScanPlace::Argument(parameter(function)),
        )
    }
}

/// The place behind a text in quotes.
fn behind_quotes(literal: Option<Side>) -> ScanPlace {
    match literal {
        Some(side) => behind_literal(side),
        None => ScanPlace::SelectorEnd,
    }
}
