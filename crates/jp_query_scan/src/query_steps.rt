//! The steps of a scan through segments and selectors (RFC 9535, 2.3 and 2.5).

use crate::expected::behind_several;
use crate::place::{Begun, NumberOf, Open, QuoteStage, Quoted, ScanPlace, Side};
use crate::reason::Reason;
use crate::scanner::{Halt, Scanner};

pub(crate) fn is_blank(c: char) -> bool {
    matches!(c, ' ' | '\t' | '\n' | '\r')
}

fn is_first(c: char) -> bool {
    matches!(c, 'A'..='Z' | 'a'..='z' | '_') || c >= '\u{80}'
}

/// Whether the character begins an operator of comparisons.
pub(crate) fn is_operator(c: char) -> bool {
    matches!(c, '=' | '!' | '<' | '>')
}

impl Scanner {
    pub(crate) fn start(&mut self, at: usize, c: char) -> Result<(), Halt> {
        if c == '$' {
            self.go(ScanPlace::Segments(Begun {
                side: Side::Whole,
                singular: true,
            }))
        } else {
            Err(self.unexpected(at))
        }
    }

    /// A query that may select several nodes from here on, where one may stand.
    fn several(&mut self, begun: Begun, at: usize) -> Result<Begun, Halt> {
        match begun.side {
            Side::Right => Err(self.unexpected(at)),
            Side::Value => Err(self.wrong_argument(at)),
            side => Ok(Begun {
                side,
                singular: false,
            }),
        }
    }

    pub(crate) fn segments(&mut self, begun: Begun, at: usize, c: char) -> Result<(), Halt> {
        match c {
            '.' => self.go(ScanPlace::Dot(begun)),
            '[' => self.opens(at, Open::Brackets(begun), ScanPlace::Selector),
            _ if is_blank(c) => self.go(ScanPlace::Blanks(begun)),
            _ => self.query_end(begun, at, c),
        }
    }

    fn query_end(&mut self, begun: Begun, at: usize, c: char) -> Result<(), Halt> {
        match begun.side {
            Side::Whole => Err(self.unexpected(at)),
            Side::Test if is_operator(c) => self.left_side(begun, at, c),
            Side::Test | Side::Negated | Side::Right => self.test_end(at, c),
            Side::Value | Side::Nodes => self.argument_end(at, c),
        }
    }

    /// Behind a query, at a character that begins an operator.
    fn left_side(&mut self, begun: Begun, at: usize, c: char) -> Result<(), Halt> {
        if begun.singular {
            return self.operator(None, at, c);
        }
        let reason = Reason::Expected(behind_several(self.inside()));
        Err(Halt::At(at, reason))
    }

    pub(crate) fn dot(&mut self, begun: Begun, at: usize, c: char) -> Result<(), Halt> {
        match c {
            '.' => {
                let begun = self.several(begun, at)?;
                self.go(ScanPlace::Dots(begun))
            }
            '*' => {
                let begun = self.several(begun, at)?;
                self.go(ScanPlace::Segments(begun))
            }
            _ if is_first(c) => self.go(ScanPlace::Name(begun)),
            _ => Err(self.unexpected(at)),
        }
    }

    pub(crate) fn dots(&mut self, begun: Begun, at: usize, c: char) -> Result<(), Halt> {
        match c {
            '*' => self.go(ScanPlace::Segments(begun)),
            '[' => self.opens(at, Open::Brackets(begun), ScanPlace::Selector),
            _ if is_first(c) => self.go(ScanPlace::Name(begun)),
            _ => Err(self.unexpected(at)),
        }
    }

    pub(crate) fn name(&mut self, begun: Begun, at: usize, c: char) -> Result<(), Halt> {
        if is_first(c) || c.is_ascii_digit() {
            return Ok(());
        }
        self.place = ScanPlace::Segments(begun);
        self.segments(begun, at, c)
    }

    /// Goes on to the place in brackets whose query may select several nodes, where one may stand.
    fn several_by(&mut self, at: usize, place: ScanPlace) -> Result<(), Halt> {
        let Some(Open::Brackets(begun)) = self.inside() else {
            return Err(self.unexpected(at));
        };
        let begun = self.several(begun, at)?;
        self.replace(at, Open::Brackets(begun), place)
    }

    /// The same with this in the place of the innermost of the open brackets.
    pub(crate) fn replace(&mut self, at: usize, open: Open, place: ScanPlace) -> Result<(), Halt> {
        let _replaced = self.open.pop();
        self.opens(at, open, place)
    }

    pub(crate) fn selector(&mut self, at: usize, c: char) -> Result<(), Halt> {
        match c {
            '"' | '\'' => self.go(ScanPlace::Quoted(Quoted {
                quote: c,
                literal: None,
                part: QuoteStage::Bare,
            })),
            '*' => self.several_by(at, ScanPlace::SelectorEnd),
            '?' => self.several_by(at, ScanPlace::Operand(Side::Test)),
            ':' => self.several_by(at, ScanPlace::Past),
            _ if is_blank(c) => Ok(()),
            _ if c == '-' || c.is_ascii_digit() => self.number_start(NumberOf::Index, at, c),
            _ => Err(self.unexpected(at)),
        }
    }

    pub(crate) fn selector_end(&mut self, at: usize, c: char) -> Result<(), Halt> {
        match (c, self.inside()) {
            (',', _) => self.several_by(at, ScanPlace::Selector),
            (']', Some(Open::Brackets(begun))) => {
                let _closed = self.open.pop();
                self.go(ScanPlace::Segments(begun))
            }
            _ if is_blank(c) => Ok(()),
            _ => Err(self.unexpected(at)),
        }
    }

    pub(crate) fn index_end(&mut self, at: usize, c: char) -> Result<(), Halt> {
        match c {
            ':' => self.several_by(at, ScanPlace::Past),
            _ => self.selector_end(at, c),
        }
    }

    pub(crate) fn past(&mut self, at: usize, c: char) -> Result<(), Halt> {
        match c {
            ':' => self.go(ScanPlace::Step),
            _ if c == '-' || c.is_ascii_digit() => self.number_start(NumberOf::Past, at, c),
            _ => self.selector_end(at, c),
        }
    }

    pub(crate) fn past_end(&mut self, at: usize, c: char) -> Result<(), Halt> {
        match c {
            ':' => self.go(ScanPlace::Step),
            _ => self.selector_end(at, c),
        }
    }

    pub(crate) fn slice_step(&mut self, at: usize, c: char) -> Result<(), Halt> {
        match c {
            _ if c == '-' || c.is_ascii_digit() => self.number_start(NumberOf::Step, at, c),
            _ => self.selector_end(at, c),
        }
    }
}
