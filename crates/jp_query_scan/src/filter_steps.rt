//! The steps of a scan through tests, comparisons and calls (RFC 9535, 2.3.5 and 2.4).

use crate::functions::{gives_value, parameter, takes_literal, takes_two};
use crate::place::{Begun, Called, NumberOf, Open, QuoteStage, Quoted, ScanPlace, Side};
use crate::query_steps::{is_blank, is_operator};
use crate::reason::Rule;
use crate::scanner::{Halt, Scanner};

/// Whether the character may follow a test.
fn ends_test(c: char) -> bool {
    matches!(c, '&' | '|' | ']' | ')' | ',')
}

impl Scanner {
    /// The argument that is being read is none that the call around it takes.
    pub(crate) fn wrong_argument(&mut self, at: usize) -> Halt {
        while let Some(open) = self.open.pop() {
            if let Open::Call { call, .. } = open {
                let rule = Rule::Takes(call.function);
                return self.against(call.start, ScanPlace::Operand(call.side), rule);
            }
        }
        self.unexpected(at)
    }

    pub(crate) fn operand(&mut self, side: Side, at: usize, c: char) -> Result<(), Halt> {
        match c {
            '$' | '@' => self.go(ScanPlace::Segments(Begun {
                side,
                singular: true,
            })),
            '"' | '\'' | '-' => self.literal(side, at, c),
            _ if c.is_ascii_digit() => self.literal(side, at, c),
            _ if c.is_ascii_lowercase() => self.word_start(side, at, c),
            '(' | '!' => self.test_start(side, at, c),
            _ if is_blank(c) => self.go(ScanPlace::Operand(side)),
            _ => Err(self.unexpected(at)),
        }
    }

    /// At the first character of a text in quotes or of a number.
    fn literal(&mut self, side: Side, at: usize, c: char) -> Result<(), Halt> {
        match side {
            _ if !takes_literal(side) => match side {
                Side::Nodes => Err(self.wrong_argument(at)),
                _ => Err(self.unexpected(at)),
            },
            _ if matches!(c, '"' | '\'') => self.go(ScanPlace::Quoted(Quoted {
                quote: c,
                literal: Some(side),
                part: QuoteStage::Bare,
            })),
            _ => self.number_start(NumberOf::Literal(side), at, c),
        }
    }

    /// At a parenthesis or `!`.
    fn test_start(&mut self, side: Side, at: usize, c: char) -> Result<(), Halt> {
        match (side, c) {
            (Side::Test | Side::Negated, '(') => {
                self.opens(at, Open::Parenthesis, ScanPlace::Operand(Side::Test))
            }
            (Side::Test, _) => self.go(ScanPlace::Operand(Side::Negated)),
            (Side::Value | Side::Nodes, _) => Err(self.wrong_argument(at)),
            _ => Err(self.unexpected(at)),
        }
    }

    /// Whether the argument that begins here is the second one of a call.
    fn is_second(&self) -> bool {
        match self.inside() {
            Some(Open::Call { second, .. }) => second,
            _ => false,
        }
    }

    pub(crate) fn argument(&mut self, side: Side, at: usize, c: char) -> Result<(), Halt> {
        match c {
            ')' if !self.is_second() => Err(self.wrong_argument(at)),
            _ if is_blank(c) => Ok(()),
            _ => self.operand(side, at, c),
        }
    }

    /// Behind an argument that is no test.
    pub(crate) fn argument_end(&mut self, at: usize, c: char) -> Result<(), Halt> {
        match c {
            '=' | '!' | '<' | '>' | '&' | '|' => Err(self.wrong_argument(at)),
            _ if is_blank(c) => Ok(()),
            _ => self.arguments(at, c),
        }
    }

    /// Behind an argument, at a comma or a parenthesis.
    fn arguments(&mut self, at: usize, c: char) -> Result<(), Halt> {
        let Some(Open::Call { call, second }) = self.inside() else {
            return Err(self.unexpected(at));
        };
        let more = takes_two(call.function) && !second;
        match c {
            ',' if more => self.replace(
                at,
                Open::Call { call, second: true },
                ScanPlace::Argument(parameter(call.function)),
            ),
            ')' if !more => {
                let _closed = self.open.pop();
                self.go(behind_call(call))
            }
            ',' | ')' => Err(self.wrong_argument(at)),
            _ => Err(self.unexpected(at)),
        }
    }

    /// Behind a left side: a query, a call or a literal.
    pub(crate) fn operator(
        &mut self,
        call: Option<Called>,
        at: usize,
        c: char,
    ) -> Result<(), Halt> {
        match c {
            '=' | '!' => self.go(ScanPlace::Doubled),
            '<' | '>' => self.go(ScanPlace::OrEqual),
            _ if is_blank(c) => Ok(()),
            _ if ends_test(c) => Err(self.not_compared(call, at, c)),
            _ => Err(self.unexpected(at)),
        }
    }

    /// The left side, which is this call or a literal, is not compared.
    fn not_compared(&mut self, call: Option<Called>, at: usize, c: char) -> Halt {
        if let Some(call) = call {
            let rule = Rule::Compared(call.function);
            return self.against(call.start, ScanPlace::Operand(call.side), rule);
        }
        match self.inside() {
            Some(Open::Call { .. }) if matches!(c, ',' | ')') => self.wrong_argument(at),
            _ => self.unexpected(at),
        }
    }

    pub(crate) fn doubled(&mut self, at: usize, c: char) -> Result<(), Halt> {
        match c {
            '=' => self.go(ScanPlace::Operand(Side::Right)),
            _ => Err(self.unexpected(at)),
        }
    }

    pub(crate) fn or_equal(&mut self, at: usize, c: char) -> Result<(), Halt> {
        match c {
            '=' => self.go(ScanPlace::Operand(Side::Right)),
            _ => self.operand(Side::Right, at, c),
        }
    }

    /// Behind the first character of `&&` or `||`.
    pub(crate) fn connective(&mut self, mark: char, at: usize, c: char) -> Result<(), Halt> {
        if c == mark {
            self.go(ScanPlace::Operand(Side::Test))
        } else {
            Err(self.unexpected(at))
        }
    }

    /// Behind a test, which may be this call.
    pub(crate) fn joint(&mut self, call: Option<Called>, at: usize, c: char) -> Result<(), Halt> {
        match call {
            Some(call) if is_operator(c) => {
                let rule = Rule::Alone(call.function);
                Err(self.against(call.start, ScanPlace::Operand(call.side), rule))
            }
            _ if is_blank(c) => Ok(()),
            _ => self.test_end(at, c),
        }
    }

    /// The same at a character that is no blank.
    pub(crate) fn test_end(&mut self, at: usize, c: char) -> Result<(), Halt> {
        match (c, self.inside()) {
            ('&', _) => self.go(ScanPlace::And),
            ('|', _) => self.go(ScanPlace::Or),
            (_, Some(Open::Brackets(_))) => self.selector_end(at, c),
            (')', Some(Open::Parenthesis)) => {
                let _closed = self.open.pop();
                self.go(ScanPlace::Joint(None))
            }
            (_, Some(Open::Call { .. })) => self.arguments(at, c),
            _ => Err(self.unexpected(at)),
        }
    }
}

/// The place behind a call.
fn behind_call(call: Called) -> ScanPlace {
    match call.side {
        Side::Test if gives_value(call.function) => ScanPlace::Operator(Some(call)),
        Side::Test | Side::Negated => ScanPlace::Joint(Some(call)),
        Side::Whole | Side::Right => ScanPlace::Joint(None),
        Side::Value | Side::Nodes => ScanPlace::ArgumentEnd,
    }
}
