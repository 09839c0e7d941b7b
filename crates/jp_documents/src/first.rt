//! Where the first document of some bytes ends.

ghost use Rattle.std.specs.Prelude.{◌+◌, ◌<◌, ◌^◌, length};
ghost use Rattle.jp_documents.specs.inner.Finding.{IsFirst, depth_of};

use crate::place::{Place, Turn, turn_at};
use crate::runs::passed;

/// The first document that ends in some bytes, and what stands behind it; or the document that is open behind
/// them, and where the next byte stands.
pub(crate) enum First<'b> {
    Ended(&'b [u8], &'b [u8]),
    Open(&'b [u8], Place),
}

/// Finds where the document ends that is open at a place, or else the first that begins in the bytes.
pub(crate) fn first_document(start: Place, bytes: &[u8]) -> First<'_>
    requires { depth_of start + length bytes.now + 1 < 2 ^ 64 }
    ensures { IsFirst start bytes.now result }
{
    let mut place = start;
    let mut from = 0;
    let mut at = 0;
    'bytes: loop {
        let (count, here) = passed(place, &bytes[at..]);
        at += count;
        if at == bytes.len() {
            return First::Open(&bytes[from..], here);
        }
        match turn_at(here, bytes[at]) {
            Turn::Skipped => {
                from = at + 1;
                place = here;
            }
            Turn::Taken(next) => place = next,
            Turn::Last => return First::Ended(&bytes[from..at + 1], &bytes[at + 1..]),
            Turn::Behind => return First::Ended(&bytes[from..at], &bytes[at..]),
        }
        at += 1;
    }
}
