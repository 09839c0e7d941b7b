//! Members of an object.

ghost use Rattle.std.specs.Prelude.{◌≡◌, ◌↔◌, ◌++◌, [], ◌∷◌, length, IfOk, IsTrue, MatchOption};
ghost use Rattle.std.specs.Str.{chars};
ghost use Rattle.jp_doc.specs.Json.{no_members};
ghost use Rattle.jp_flat.specs.Structured.{structured};
ghost use Rattle.jp_node.specs.Inside.{members_in};
ghost use Rattle.jp_node.specs.Members.{members, list_entries, range_entries};
ghost use Rattle.jp_node.specs.Part.{part_value};

use crate::part::Part;
use jp_flat::{FlatMember, FlatMembers, MEMBERS_AT_FIRST};
use std::alloc::{AllocError, Global};

/// The members of an object.
#[derive(Clone, Copy)]
pub struct Members<'v> {
    /// The members.
    pub members: FlatMembers<'v>,
}

/// Members of an object in rising order of their names, in a list.
#[derive(Drop)]
pub struct MemberList<'v> {
    /// The members.
    pub list: Vec<FlatMember<'v>>,
}

/// Members that stand one behind another in a list.
#[derive(Clone, Copy)]
pub struct MemberRange<'c, 'v> {
    /// The members.
    pub members: &'c [FlatMember<'v>],
}

/// A member of an object.
#[derive(Clone, Copy)]
pub struct Member<'v> {
    /// Its name.
    pub name: &'v str,
    /// Its value.
    pub value: Part<'v>,
}

impl<'v> Members<'v> {
    /// Whether there is none.
    pub fn is_empty(self) -> bool
        ensures { IsTrue result ↔ (members_in self.entry ≡ no_members) }
    {
        match self.members.split_first() {
            None => true,
            Some(_) => false,
        }
    }

    /// The members in rising order of their names, each name once.
    ///
    /// `AllocError` if a growth was refused.
    pub fn gather(self, alloc: Global) -> Result<MemberList<'v>, AllocError>
        ensures { IfOk result (λ l. members_in self.entry ≡ members (list_entries l)) }
    {
        let mut list = Vec::with_capacity(alloc, MEMBERS_AT_FIRST)?;
        self.members.gather(&mut list)?;
        Ok(MemberList { list })
    }

    /// The members whose values are arrays or objects, in rising order of their names, each name once.
    ///
    /// `AllocError` if a growth was refused.
    // Many objects have none, and then no room is asked for.
    pub(crate) fn gather_structured(self, alloc: Global) -> Result<MemberList<'v>, AllocError>
        ensures { IfOk result (λ l. members (list_entries l) ≡ structured (members_in self.entry)) }
    {
        let mut list = Vec::new(alloc);
        self.members.gather_structured(&mut list)?;
        Ok(MemberList { list })
    }
}

impl<'v> MemberList<'v> {
    /// All of them.
    pub fn range(&self) -> MemberRange<'_, 'v>
        ensures { range_entries result ≡ list_entries self.now }
    {
        MemberRange {
            members: self.list.as_slice(),
        }
    }
}

impl<'c, 'v> MemberRange<'c, 'v> {
    /// How many there are.
    pub fn len(self) -> usize
        ensures { result ≡ length (range_entries self.entry) }
    {
        self.members.len()
    }

    /// The first half, and the second. No clause says that they are equally long.
    pub fn halves(self) -> (MemberRange<'c, 'v>, MemberRange<'c, 'v>)
        ensures { range_entries result.0 ++ range_entries result.1 ≡ range_entries self.entry }
    {
        let (left, right) = self.members.split_at(self.members.len() / 2);
        (
            MemberRange { members: left },
            MemberRange { members: right },
        )
    }

    /// The first, and those behind it.
    // Each turn of a loop over members takes one so: handed out by a call, it would go by memory.
    #[inline(always)]
    pub fn split_first(self) -> Option<(Member<'v>, MemberRange<'c, 'v>)>
        ensures { MatchOption result (range_entries self.entry ≡ [])
            (λ p. range_entries self.entry
            ≡ (chars p.0.name.now, part_value p.0.value) ∷ range_entries p.1) }
    {
        match self.members.split_first() {
            None => None,
            Some((first, members)) => {
                let FlatMember { name, value } = *first;
                let value = Part { value };
                Some((Member { name, value }, MemberRange { members }))
            }
        }
    }
}
