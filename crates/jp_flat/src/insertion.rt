//! Members inserted one after another where their names belong.

ghost use Rattle.std.specs.Prelude.{◌≡◌, ◌≤◌, ◌<◌, suc, take, drop, length, IsTrue, IfOk, OnOk};
ghost use Rattle.std.specs.Str.{chars};
ghost use Rattle.jp_doc.specs.Json.{no_members};
ghost use Rattle.jp_doc.specs.Tree.{put_member};
ghost use Rattle.jp_flat.specs.Gathered.{gathered, NamesRise};
ghost use Rattle.jp_flat.specs.Members.{put_all};
ghost use Rattle.jp_flat.specs.Value.{entries, flat_value};
ghost use Rattle.jp_flat.specs.inner.Placed.{IsPlace};

use crate::gather::order;
use crate::limits::MOST_INSERTED;
use crate::value::{FlatMember, FlatMembers};
use std::alloc::AllocError;
use std::cmp::Ordering;

/// Where a name belongs among names that rise.
#[derive(Clone, Copy)]
pub(crate) enum NamePlace {
    /// In front of the one with this index, or behind all.
    Before(usize),
    /// At this index, where it stands already.
    Same(usize),
}

/// Where the name belongs. Names that come in order belong behind all, so it is looked for from there.
// A part of each loop over members: by a call the place would go by memory.
#[inline(always)]
pub(crate) fn place_of(list: &[FlatMember<'_>], name: &str) -> NamePlace
    requires { NamesRise (gathered list.now) }
    ensures { IsPlace result (chars name.now) list.now }
{
    let mut place = list.len();
    while place > 0 {
        match order(name, list[place - 1].name) {
            Ordering::Less => place -= 1,
            Ordering::Equal => return NamePlace::Same(place - 1),
            Ordering::Greater => return NamePlace::Before(place),
        }
    }
    NamePlace::Before(0)
}

/// Puts a member where its name belongs, and in the place of one that has it.
///
/// `AllocError` if a growth was refused.
// As `place_of`.
#[inline(always)]
pub(crate) fn put<'d>(
    member: FlatMember<'d>,
    list: &mut Vec<FlatMember<'d>>,
) -> Result<(), AllocError>
    requires { NamesRise (gathered list.old.items) }
    ensures { OnOk result (gathered list.new.items ≡ put_member (chars member.entry.name.now)
        (flat_value member.entry.value) (gathered list.old.items)) }
{
    match place_of(list.as_slice(), member.name) {
        NamePlace::Before(place) => list.insert(place, member)?,
        NamePlace::Same(place) => list[place] = member,
    }
    Ok(())
}

/// Fills `out` with the members, where they are few: each name once, with its last value, in rising order.
/// `false` where there are more.
///
/// `AllocError` if a growth was refused.
pub(crate) fn insert_few<'d>(
    members: FlatMembers<'d>,
    out: &mut Vec<FlatMember<'d>>,
) -> Result<bool, AllocError>
    ensures { IfOk result (λ few. IsTrue few
        → gathered out.new.items ≡ put_all (entries members.entry) no_members) }
{
    out.clear();
    let mut left = members;
    while let Some((member, others)) = left.split_first() {
        if out.len() == MOST_INSERTED {
            return Ok(false);
        }
        put(member, out)?;
        left = others;
    }
    Ok(true)
}
