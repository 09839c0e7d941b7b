//! Members in rising order of their names.

ghost use Rattle.std.specs.Prelude.{◌≡◌, IsTrue, OnOk, IfOk, map, None};
ghost use Rattle.std.specs.Str.{chars};
ghost use Rattle.jp_doc.specs.Json.{Text, text_cmp, text_eq};
ghost use Rattle.jp_doc.specs.Location.{member_at};
ghost use Rattle.jp_flat.specs.inner.Above.{IsAbove};
ghost use Rattle.jp_flat.specs.Gathered.{entry, gathered, NamesRise};
ghost use Rattle.jp_flat.specs.Members.{last_of};
ghost use Rattle.jp_flat.specs.Value.{entries};

use crate::insertion::insert_few;
use crate::value::{FlatMember, FlatMembers};
use std::alloc::AllocError;
use std::cmp::Ordering;

/// The order of two names, by their bytes and so by their scalar values.
// Most names differ in their first byte, which is told without a look at their lengths.
#[inline(always)]
pub(crate) fn order(left: &str, right: &str) -> Ordering
    ensures { result ≡ text_cmp (chars left.now) (chars right.now) }
{
    if let (Some(first), Some(second)) = (left.as_bytes().first(), right.as_bytes().first()) {
        if *first < *second {
            return Ordering::Less;
        }
        if *second < *first {
            return Ordering::Greater;
        }
    }
    left.cmp(right)
}

/// Whether two names are the same, byte by byte.
// A call, since few names come to it: within a loop over members it would take what that has of registers.
#[inline(never)]
fn is_same_text(left: &str, right: &str) -> bool
    ensures { result ≡ text_eq (chars left.now) (chars right.now) }
{
    left == right
}

/// Whether two names are the same.
// Most names differ in their length or in their first byte, which is told without a call.
#[inline(always)]
pub(crate) fn is_same(left: &str, right: &str) -> bool
    ensures { result ≡ text_eq (chars left.now) (chars right.now) }
{
    if left.len() != right.len() {
        return false;
    }
    if let (Some(first), Some(second)) = (left.as_bytes().first(), right.as_bytes().first()) {
        if *first != *second {
            return false;
        }
    }
    is_same_text(left, right)
}

/// Whether a name is above the one before it, if there is one.
fn is_above(before: Option<&str>, name: &str) -> bool
    ensures { IsTrue result → IsAbove before.entry (chars name.now) }
{
    match before {
        Some(last) => order(last, name) == Ordering::Less,
        None => true,
    }
}

/// A member's name.
// A field, with a clause: a call for it would be one more at each member.
#[inline(always)]
fn name_of<'d>(member: FlatMember<'d>) -> &'d str
    ensures { result.now ≡ member.entry.name.now }
{
    member.name
}

/// Fills `out` with the members in the order of the line, and tells whether their names rise.
///
/// `AllocError` if a growth was refused.
fn list<'d>(members: FlatMembers<'d>, out: &mut Vec<FlatMember<'d>>) -> Result<bool, AllocError>
    ensures listed { OnOk result (map entry out.new.items ≡ entries members.entry) }
    ensures rising { IfOk result (λ b. IsTrue b → NamesRise (gathered out.new.items)) }
{
    out.clear();
    let mut rising = true;
    let mut before = None;
    let mut left = members;
    while let Some((member, others)) = left.split_first() {
        rising = rising && is_above(before, member.name);
        before = Some(name_of(member));
        out.push(member)?;
        left = others;
    }
    Ok(rising)
}

/// Sorts members by their names, and keeps of each name the last.
///
/// `AllocError` if a growth was refused.
fn sort(members: &mut Vec<FlatMember<'_>>) -> Result<(), AllocError>
    ensures rising { OnOk result (NamesRise (gathered members.new.items)) }
    ensures last { OnOk result ((k : Text) → member_at k (gathered members.new.items)
        ≡ last_of k (map entry members.old.items) None) }
{
    // The sort keeps members of one name in their order, and the first of them is kept.
    members.reverse();
    members.sort_by(|left, right| order(left.name, right.name))?;
    members.dedup_by(|later, kept| is_same(later.name, kept.name));
    Ok(())
}

impl<'d> FlatMembers<'d> {
    ghost use Rattle.jp_doc.specs.Json.{object};
    ghost use Rattle.jp_flat.specs.Value.{members_value};

    /// Fills `out` with the object's members: each name once, with its last value, in rising order. A few are
    /// inserted where they belong, and more are sorted, unless their names rise already.
    ///
    /// `AllocError` if a growth was refused.
    pub fn gather(self, out: &mut Vec<FlatMember<'d>>) -> Result<(), AllocError>
        ensures members { OnOk result (members_value self.entry ≡ object (gathered out.new.items)) }
        ensures rising { OnOk result (NamesRise (gathered out.new.items)) }
    {
        if insert_few(self, out)? {
            return Ok(());
        }
        if !list(self, out)? {
            sort(out)?;
        }
        Ok(())
    }
}
