//! Members whose values are arrays or objects.

ghost use Rattle.std.specs.Prelude.{◌≡◌, OnOk, IfOk, IsTrue};
ghost use Rattle.std.specs.Str.{chars};
ghost use Rattle.jp_doc.specs.Json.{Members, object, no_members};
ghost use Rattle.jp_flat.specs.Gathered.{gathered, NamesRise};
ghost use Rattle.jp_flat.specs.Members.{put_all};
ghost use Rattle.jp_flat.specs.Structured.{structured};
ghost use Rattle.jp_flat.specs.Value.{entries, members_value};
ghost use Rattle.jp_flat.specs.inner.Without.{without};

use crate::insertion::{NamePlace, place_of, put};
use crate::limits::MOST_INSERTED;
use crate::value::{FlatMember, FlatMembers};
use std::alloc::AllocError;

/// Takes the member of this name out, if there is one.
fn take_out(name: &str, list: &mut Vec<FlatMember<'_>>)
    requires { NamesRise (gathered list.old.items) }
    ensures { gathered list.new.items ≡ without (chars name.now) (gathered list.old.items) }
{
    if let NamePlace::Same(place) = place_of(list.as_slice(), name) {
        list.remove(place);
    }
}

/// Fills `out` with the members whose last values are structured, where these are few, in rising order of
/// their names. `false` where there are more.
///
/// `AllocError` if a growth was refused.
fn insert_structured<'d>(
    members: FlatMembers<'d>,
    out: &mut Vec<FlatMember<'d>>,
) -> Result<bool, AllocError>
    ensures { IfOk result (λ few. IsTrue few
        → gathered out.new.items ≡ structured (put_all (entries members.entry) no_members)) }
{
    out.clear();
    let mut left = members;
    while let Some((member, others)) = left.split_first() {
        if member.value.is_structured() {
            if out.len() == MOST_INSERTED {
                return Ok(false);
            }
            put(member, out)?;
        } else {
            // It is the last of its name so far.
            take_out(member.name, out);
        }
        left = others;
    }
    Ok(true)
}

impl<'d> FlatMembers<'d> {
    /// Fills `out` with those of the object's members whose values are arrays or objects: each name once,
    /// with its last value, in rising order. A few are inserted where they belong. Where there are more all
    /// members are gathered, and the others left out.
    ///
    /// `AllocError` if a growth was refused.
    pub fn gather_structured(self, out: &mut Vec<FlatMember<'d>>) -> Result<(), AllocError>
        ensures { OnOk result ((ms : Members) × (members_value self.entry ≡ object ms)
            × (gathered out.new.items ≡ structured ms)) }
    {
        if insert_structured(self, out)? {
            return Ok(());
        }
        self.gather(out)?;
        out.retain(|member| member.value.is_structured());
        Ok(())
    }
}
