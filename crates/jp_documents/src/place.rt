//! Where a byte stands, and what it does to the document that is open there.

ghost use Rattle.std.specs.Prelude.{◌≡◌, ◌+◌, ◌<◌, ◌^◌};
ghost use Rattle.jp_documents.specs.Documents as spec;
ghost use Rattle.jp_documents.specs.inner.Finding.{depth_of};

/// What leads to a byte in brackets.
#[derive(Clone, Copy, Drop)]
pub enum Lead {
    /// An opening bracket, a comma or a colon, and blanks: a value may begin.
    MayBegin,
    /// Something else.
    Within,
    /// Something else, and then a line feed.
    AtLine,
}

/// Where a byte stands.
#[derive(Clone, Copy, Drop)]
pub enum Place {
    /// In no document.
    Between,
    /// In a word: a document that began with neither an opening bracket nor a quote.
    InWord,
    /// In so many brackets, and in no string, with what leads there.
    InBrackets(u64, Lead),
    /// In a string, in so many brackets.
    InText(u64),
    /// Behind a backslash, in a string in so many brackets.
    InEscape(u64),
}

/// What a byte does to the document that is open where it stands.
#[derive(Clone, Copy, Drop)]
pub enum Turn {
    /// None is open, and the byte begins none.
    Skipped,
    /// The byte belongs to it, and it goes on at this place.
    Taken(Place),
    /// The byte is its last.
    Last,
    /// It ended before the byte.
    Behind,
}

/// A space, a tab, a line feed or a carriage return.
fn is_blank(byte: u8) -> bool
    ensures { result ≡ spec.is_blank_byte byte }
{
    byte == b' ' || byte == b'\t' || byte == b'\n' || byte == b'\r'
}

/// A bracket of either kind that opens.
pub(crate) fn is_opening(byte: u8) -> bool
    ensures { result ≡ spec.is_opening byte }
{
    byte == b'{' || byte == b'['
}

/// A bracket of either kind that closes.
pub(crate) fn is_closing(byte: u8) -> bool
    ensures { result ≡ spec.is_closing byte }
{
    byte == b'}' || byte == b']'
}

/// Where the byte stands that comes behind a document's first.
fn place_behind_first(byte: u8) -> Place
    ensures { result ≡ spec.place_behind_first byte }
{
    if is_opening(byte) {
        Place::InBrackets(1, Lead::MayBegin)
    } else if byte == b'"' {
        Place::InText(0)
    } else {
        Place::InWord
    }
}

/// What a closing bracket does in so many.
fn closed(depth: u64) -> Turn
    ensures { result ≡ spec.closed depth }
{
    if depth <= 1 {
        Turn::Last
    } else {
        Turn::Taken(Place::InBrackets(depth - 1, Lead::Within))
    }
}

/// What the quote does that ends a string in so many brackets.
fn text_closed(depth: u64) -> Turn
    ensures { result ≡ spec.text_closed depth }
{
    if depth == 0 {
        Turn::Last
    } else {
        Turn::Taken(Place::InBrackets(depth, Lead::Within))
    }
}

/// What a line feed does to a string in so many brackets.
fn line_ended(depth: u64) -> Turn
    ensures { result ≡ spec.line_ended depth }
{
    if depth == 0 {
        Turn::Behind
    } else {
        Turn::Taken(Place::InBrackets(depth, Lead::AtLine))
    }
}

/// What an opening bracket does in so many.
fn opened(lead: Lead, depth: u64) -> Turn
    requires { depth + 1 < 2 ^ 64 }
    ensures { result ≡ spec.opened lead depth }
{
    match lead {
        Lead::MayBegin | Lead::Within => {
            Turn::Taken(Place::InBrackets(depth + 1, Lead::MayBegin))
        }
        Lead::AtLine => Turn::Behind,
    }
}

/// What leads on behind a byte that is neither a bracket nor a quote.
pub(crate) fn lead_behind(lead: Lead, byte: u8) -> Lead
    ensures { result ≡ spec.lead_behind lead byte }
{
    match lead {
        Lead::MayBegin if is_blank(byte) => Lead::MayBegin,
        Lead::Within if byte == b'\n' => Lead::AtLine,
        Lead::AtLine if byte == b'\n' => Lead::AtLine,
        _ if byte == b',' || byte == b':' => Lead::MayBegin,
        _ => Lead::Within,
    }
}

/// What a byte does in so many brackets.
fn turn_in_brackets(depth: u64, lead: Lead, byte: u8) -> Turn
    requires { depth + 1 < 2 ^ 64 }
    ensures { result ≡ spec.turn (Place.InBrackets depth lead) byte }
{
    if is_opening(byte) {
        opened(lead, depth)
    } else if is_closing(byte) {
        closed(depth)
    } else if byte == b'"' {
        Turn::Taken(Place::InText(depth))
    } else {
        Turn::Taken(Place::InBrackets(depth, lead_behind(lead, byte)))
    }
}

/// What a byte does in a string in so many brackets.
fn turn_in_text(depth: u64, byte: u8) -> Turn
    ensures { result ≡ spec.turn (Place.InText depth) byte }
{
    match byte {
        b'"' => text_closed(depth),
        b'\\' => Turn::Taken(Place::InEscape(depth)),
        b'\n' => line_ended(depth),
        _ => Turn::Taken(Place::InText(depth)),
    }
}

/// What a byte does where it stands.
pub(crate) fn turn_at(place: Place, byte: u8) -> Turn
    requires { depth_of place + 1 < 2 ^ 64 }
    ensures { result ≡ spec.turn place byte }
{
    match place {
        Place::Between => {
            if is_blank(byte) {
                Turn::Skipped
            } else {
                Turn::Taken(place_behind_first(byte))
            }
        }
        Place::InWord => {
            if is_blank(byte) || is_opening(byte) || byte == b'"' {
                Turn::Behind
            } else {
                Turn::Taken(Place::InWord)
            }
        }
        Place::InBrackets(depth, lead) => turn_in_brackets(depth, lead, byte),
        Place::InText(depth) => turn_in_text(depth, byte),
        Place::InEscape(depth) => {
            if byte == b'\n' {
                line_ended(depth)
            } else {
                Turn::Taken(Place::InText(depth))
            }
        }
    }
}
