//! The bracket depth of a text.

ghost use Rattle.std.specs.Prelude.{◌≡◌, ◌<◌, ◌↔◌, ℕ, IsTrue};
ghost use Rattle.std.specs.Str.{chars};
ghost use Rattle.jp_tokens.specs.Depth as depth;
ghost use Rattle.jp_tokens.specs.inner.DepthView.{place_of};

/// The deepest nesting of brackets and parentheses that is read: it bounds the frames of all that goes over a
/// query.
const MAX_DEPTH: u64 = 64;

/// Where a scan stands, beside the count of open brackets.
#[derive(Clone, Copy)]
enum Quotes {
    /// Outside quotes.
    Outside,
    /// In a part that this quote opened.
    Inside(char),
    /// The same, behind a backslash.
    Passing(char),
}

/// Where the scan stands past the character.
fn quotes_after(quotes: Quotes, c: char) -> Quotes
    ensures { (count : ℕ)
        → place_of result (depth.count_of (depth.step (place_of quotes count) c))
        ≡ depth.step (place_of quotes count) c }
{
    match quotes {
        Quotes::Outside => match c {
            '"' | '\'' => Quotes::Inside(c),
            _ => Quotes::Outside,
        },
        Quotes::Inside(quote) => {
            if c == '\\' {
                Quotes::Passing(quote)
            } else if c == quote {
                Quotes::Outside
            } else {
                Quotes::Inside(quote)
            }
        }
        Quotes::Passing(quote) => Quotes::Inside(quote),
    }
}

/// The count past a character outside quotes.
fn count_outside(count: u64, c: char) -> u64
    requires { count < u64.MAX }
    ensures { result ≡ depth.count_of (depth.step (depth.outside count) c) }
{
    match c {
        '[' | '(' => count + 1,
        ']' | ')' => count.saturating_sub(1),
        _ => count,
    }
}

/// The count past the character, which brackets in quotes leave as it is.
fn count_after(quotes: Quotes, count: u64, c: char) -> u64
    requires { count < u64.MAX }
    ensures { result ≡ depth.count_of (depth.step (place_of quotes count) c) }
{
    match quotes {
        Quotes::Outside => count_outside(count, c),
        Quotes::Inside(_) => count,
        Quotes::Passing(_) => count,
    }
}

/// How deep brackets and parentheses are nested in the text, outside quotes.
/// It takes no memory.
pub fn bracket_depth(text: &str) -> u64
    ensures { result ≡ depth.bracket_depth (chars text.now) }
{
    let mut quotes = Quotes::Outside;
    let mut count = 0;
    let mut deepest = 0;
    for c in text.chars() {
        count = count_after(quotes, count, c);
        quotes = quotes_after(quotes, c);
        if count > deepest {
            deepest = count;
        }
    }
    deepest
}

/// Whether brackets and parentheses are nested deeper than those of a query may be, which is 64.
/// It takes no memory.
pub fn is_too_deep(text: &str) -> bool
    ensures { IsTrue result ↔ (depth.max_depth < depth.bracket_depth (chars text.now)) }
{
    bracket_depth(text) > MAX_DEPTH
}
