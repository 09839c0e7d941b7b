//! A line for a terminal.

ghost use Rattle.std.specs.Prelude.{◌≡◌, ◌∷◌, ◌++◌, [], true, false, IfOk, OnOk};
ghost use Rattle.std.specs.Str.{chars};
ghost use Rattle.jp_tree.specs.View.{text_of};
ghost use Rattle.jp_explain.specs.Picture.{is_escaped, is_shown, picture};

use crate::characters::{columns, hex_digit, is_escaped};
use crate::growth::{push_character, push_text};
use std::alloc::{AllocError, Global};

/// A line in which no character has to be escaped.
#[derive(Drop)]
pub(crate) struct PlainLine {
    text: String,
    /// How many columns it takes.
    columns: usize,
    ghost shown: { is_shown (text_of text) ≡ true },
}

impl PlainLine {
    pub(crate) fn new(alloc: Global) -> PlainLine
        ensures { text_of result.text ≡ [] }
    {
        PlainLine {
            text: String::new(alloc),
            columns: 0,
        }
    }

    /// The text of the line.
    pub(crate) fn as_str(&self) -> &str
        ensures value { chars result.now ≡ text_of self.now.text }
        ensures shown { is_shown (text_of self.now.text) ≡ true }
    {
        self.text.as_str()
    }

    /// The text of the line, which is used up.
    pub(crate) fn into_text(self) -> String
        ensures value { text_of result ≡ text_of self.text }
        ensures shown { is_shown (text_of result) ≡ true }
    {
        self.text
    }

    /// How many columns it takes.
    pub(crate) fn columns(&self) -> usize {
        self.columns
    }

    fn push(&mut self, c: char) -> Result<(), AllocError>
        requires { is_escaped c ≡ false }
        ensures { OnOk result (text_of self.new.text ≡ text_of self.old.text ++ c ∷ []) }
    {
        self.columns = self.columns.saturating_add(columns(c));
        self.text.push(c)
    }

    /// `..`, in the place of what is left out.
    #[tactic(auto, using(crate::proofs::Ignorable::not_ignorable))]
    pub(crate) fn push_gap(&mut self) -> Result<(), AllocError> {
        self.push('.')?;
        self.push('.')
    }

    /// The escape of a unit of UTF-16.
    #[tactic(auto, using(crate::proofs::Ignorable::not_ignorable))]
    fn push_unit(&mut self, unit: u16) -> Result<(), AllocError> {
        let code = unit as u32;
        self.push('\\')?;
        self.push('u')?;
        self.push(hex_digit(code / 4096))?;
        self.push(hex_digit(code / 256 % 16))?;
        self.push(hex_digit(code / 16 % 16))?;
        self.push(hex_digit(code % 16))
    }

    /// The character, or its escape, which is of two halves where one has no room (RFC 9535, 2.3.1.1).
    pub(crate) fn push_shown(&mut self, c: char) -> Result<(), AllocError>
        ensures { is_escaped c ≡ false
            → OnOk result (text_of self.new.text ≡ text_of self.old.text ++ c ∷ []) }
    {
        if !is_escaped(c) {
            return self.push(c);
        }
        let mut units = [0u16; 2];
        for unit in &*c.encode_utf16(&mut units) {
            self.push_unit(*unit)?;
        }
        Ok(())
    }

    /// The characters, or their escapes.
    pub(crate) fn push_text(&mut self, text: &str) -> Result<(), AllocError>
        ensures { is_shown (chars text.now) ≡ true
            → OnOk result (text_of self.new.text ≡ text_of self.old.text ++ chars text.now) }
    {
        for c in text.chars() {
            self.push_shown(c)?;
        }
        Ok(())
    }

    /// So many of the first characters, and `..` for the rest.
    pub(crate) fn push_front(&mut self, text: &str, most: usize) -> Result<(), AllocError> {
        for (at, c) in text.chars().enumerate() {
            if at >= most {
                return self.push_gap();
            }
            self.push_shown(c)?;
        }
        Ok(())
    }

    /// A byte that is no UTF-8, as an escape.
    #[tactic(auto, using(crate::proofs::Ignorable::not_ignorable))]
    fn push_byte(&mut self, byte: u8) -> Result<(), AllocError> {
        let code = byte as u32;
        self.push('\\')?;
        self.push('x')?;
        self.push(hex_digit(code / 16))?;
        self.push(hex_digit(code % 16))
    }

    /// The characters of these bytes, or their escapes.
    pub(crate) fn push_bytes(&mut self, bytes: &[u8]) -> Result<(), AllocError> {
        for chunk in bytes.utf8_chunks() {
            self.push_text(chunk.valid())?;
            for byte in chunk.invalid() {
                self.push_byte(*byte)?;
            }
        }
        Ok(())
    }

    /// The line, and below it the text.
    pub(crate) fn above(&self, alloc: Global, below: &str) -> Result<String, AllocError>
        ensures shown { is_shown (text_of self.now.text) ≡ true }
        ensures value { IfOk result (λ s. text_of s ≡ text_of self.now.text ++ (10 ∷ chars below.now)) }
    {
        let mut text = String::new(alloc);
        push_text(&mut text, self.text.as_str())?;
        push_character(&mut text, '\n')?;
        push_text(&mut text, below)?;
        Ok(text)
    }

    /// The line, one with a caret behind so many blanks, and the words.
    pub(crate) fn with_caret(
        &self,
        alloc: Global,
        column: usize,
        words: &str,
    ) -> Result<String, AllocError>
        ensures line { is_shown (text_of self.now.text) ≡ true }
        ensures value { IfOk result (λ s. text_of s
            ≡ picture (text_of self.now.text) column (chars words.now)) }
    {
        let mut text = String::new(alloc);
        push_text(&mut text, self.text.as_str())?;
        push_character(&mut text, '\n')?;
        for _at in 0..column {
            push_character(&mut text, ' ')?;
        }
        push_character(&mut text, '^')?;
        push_character(&mut text, '\n')?;
        push_text(&mut text, words)?;
        Ok(text)
    }
}
