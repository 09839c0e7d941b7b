//! What tells an object and a list of members apart before the object's members are listed.

ghost use Rattle.std.specs.Prelude.{◌≡◌, None, is_some, map, IsTrue};
ghost use Rattle.std.specs.Str.{chars};
ghost use Rattle.jp_doc.specs.Json.{Text, text_eq};
ghost use Rattle.jp_doc.specs.Location.{member_at};
ghost use Rattle.jp_flat.specs.Gathered.{entry};
ghost use Rattle.jp_node.specs.Inside.{members_in};
ghost use Rattle.jp_node.specs.Members.{members, range_entries};

use crate::members::{MemberRange, Members};
use jp_flat::{FlatMember, FlatMembers};

impl<'v> Members<'v> {
    /// Whether the members of the object weigh less than those of another: by how many stand there, and the
    /// bytes of their names; a repeated name counts as often as it comes. It goes over no more of either than
    /// the lighter one holds. It tells which of two is the cheaper one to list, and no clause says more.
    pub fn is_shorter(self, other: Members<'_>) -> bool {
        let mut ones = self.members;
        let mut others = other.members;
        // By how much what is gone over of the others outweighs what is gone over of these.
        let mut ahead: usize = 0;
        while let Some((one, behind)) = ones.split_first() {
            let weight = weight_of(one);
            let Some((left, excess)) = behind_weight(others, weight.saturating_sub(ahead)) else {
                return false;
            };
            ones = behind;
            others = left;
            ahead = ahead.saturating_sub(weight).saturating_add(excess);
        }
        ahead > 0 || others.split_first().is_some()
    }

    /// Whether some name of the object was found to be none of the list. It takes no memory.
    pub fn has_other_name(self, list: MemberRange<'_, '_>) -> bool
        ensures { IsTrue result → (k : Text) × IsTrue (is_some (member_at k (members_in self.entry)))
            × (member_at k (members (range_entries list.entry)) ≡ None) }
    {
        let list = list.members;
        let mut left = self.members;
        let mut place: usize = 0;
        while let Some((member, others)) = left.split_first() {
            // The search is quick, but no clause says what it finds: only where it finds none is the whole
            // list gone over.
            if !is_found(member.name, place, list) && is_missing(member.name, list) {
                return true;
            }
            left = others;
            place = place.saturating_add(1);
        }
        false
    }
}

/// What a member weighs where it is listed: itself, and the bytes of its name, which are compared.
fn weight_of(member: FlatMember<'_>) -> usize {
    member.name.len().saturating_add(1)
}

/// The members behind the first that weigh so much together, and by how much these weigh more; or nothing,
/// where all weigh less.
fn behind_weight<'d>(members: FlatMembers<'d>, weight: usize) -> Option<(FlatMembers<'d>, usize)> {
    let mut left = members;
    let mut gone: usize = 0;
    while let Some((member, others)) = left.split_first() {
        if gone >= weight {
            break;
        }
        gone = gone.saturating_add(weight_of(member));
        left = others;
    }
    if gone < weight {
        return None;
    }
    Some((left, gone - weight))
}

/// Whether the name is found at the place where it is where all names rise and are the same, or by halves, as
/// it is where those of the list rise.
fn is_found(name: &str, place: usize, list: &[FlatMember<'_>]) -> bool {
    if let Some(member) = list.get(place) {
        if member.name == name {
            return true;
        }
    }
    list.binary_search_by(|member| member.name.cmp(name))
        .is_ok()
}

/// Whether two names are the same.
fn is_same(left: &str, right: &str) -> bool
    ensures { result ≡ text_eq (chars left.now) (chars right.now) }
{
    left == right
}

/// Whether no member of the list has the name.
fn is_missing(name: &str, list: &[FlatMember<'_>]) -> bool
    ensures { IsTrue result → member_at (chars name.now) (members (map entry list.now)) ≡ None }
{
    for member in list {
        if is_same(name, member.name) {
            return false;
        }
    }
    true
}
