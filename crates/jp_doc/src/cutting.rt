//! Where bytes are cut into lines.

ghost use Rattle.std.specs.Prelude.{◌≡◌, ◌∷◌, ◌++◌, false, IfSome, IfNone};
ghost use Rattle.jp_doc.specs.Feeding.{has_line_feed};
ghost use Rattle.jp_doc.specs.Lines.{is_blank};

use memchr::memchr;

/// Whether a line holds nothing but spaces, tabs and carriage returns. It takes no memory.
pub fn is_blank_line(line: &[u8]) -> bool
    ensures blank { result ≡ is_blank line.now }
{
    line.iter()
        .all(|byte| *byte == b' ' || *byte == b'\t' || *byte == b'\r')
}

/// What stands before the first line feed, and what stands after it, where there is one. It takes no memory.
pub fn first_line(bytes: &[u8]) -> Option<(&[u8], &[u8])>
    ensures some { IfSome result (λ parts. (bytes.now ≡ parts.0.now ++ 10 ∷ parts.1.now)
        × (has_line_feed parts.0.now ≡ false)) }
    ensures none { IfNone result (has_line_feed bytes.now ≡ false) }
{
    let Some(at) = memchr(b'\n', bytes) else {
        return None;
    };
    let (line, rest) = bytes.split_at(at);
    let (_, after) = rest.split_at(1);
    Some((line, after))
}
