//! Patterns as other languages write them, between slashes.

ghost use Rattle.std.specs.Prelude.{◌≡◌, false, IsTrue};
ghost use Rattle.std.specs.Str.{chars};
ghost use Rattle.jp_explain.specs.Slashes.{HasSlashes, is_flag, slash_next, slashes_from};

/// How far a text has come as a pattern between slashes with letters behind them, as `/x/i`.
#[derive(Clone, Copy, Debug, PartialEq, Eq)]
pub enum Slashes {
    /// It has not begun.
    Start,
    /// The first slash.
    Opened,
    /// Some characters behind it that are none.
    Inside,
    /// The second slash.
    Closed,
    /// Letters behind it that other languages write there.
    Flagged,
    /// It is no such pattern.
    Other,
}

/// Whether other languages write the letter behind the second slash.
pub(crate) fn is_flag(c: char) -> bool
    ensures { result ≡ is_flag c }
{
    matches!(c, 'g' | 'i' | 'm' | 's' | 'u' | 'x' | 'y')
}

impl Slashes {
    /// How far it has come behind one character more.
    fn past(self, c: char) -> Slashes
        ensures { result ≡ slash_next self c }
    {
        match self {
            Slashes::Start => if c == '/' {
                Slashes::Opened
            } else {
                Slashes::Other
            },
            Slashes::Opened => if c == '/' {
                Slashes::Other
            } else {
                Slashes::Inside
            },
            Slashes::Inside => if c == '/' {
                Slashes::Closed
            } else {
                Slashes::Inside
            },
            Slashes::Closed | Slashes::Flagged => if is_flag(c) {
                Slashes::Flagged
            } else {
                Slashes::Other
            },
            Slashes::Other => Slashes::Other,
        }
    }
}

/// How far the text comes.
fn slashes_of(text: &str) -> Slashes
    ensures { result ≡ slashes_from Slashes.Start (chars text.now) }
{
    let mut slashes = Slashes::Start;
    for c in text.chars() {
        slashes = slashes.past(c);
    }
    slashes
}

/// Whether the text is a pattern between slashes, with letters behind them.
pub(crate) fn has_slashes(text: &str) -> bool
    ensures yes { IsTrue result → HasSlashes (chars text.now) }
    ensures no { result ≡ false → ¬ (HasSlashes (chars text.now)) }
{
    match slashes_of(text) {
        Slashes::Flagged => true,
        _ => false,
    }
}
