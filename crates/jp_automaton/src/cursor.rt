//! A cursor over the tree of a pattern, and how it passes parts that it need not enter.

ghost use Rattle.std.specs.Prelude.{◌≡◌, ℕ, ◌+◌, ◌*◌, ◌<◌, ◌≤◌, IfSome, IfNone, IsTrue, length};
ghost use Rattle.jp_pattern.specs.Pattern.{CharSet};
ghost use Rattle.jp_pattern.specs.Profile.{max_size};
ghost use Rattle.jp_pattern.specs.Unrolled.{letter};
ghost use Rattle.jp_automaton.specs.inner.Simulation.{is_active_up_to, is_elem, entered_as, Inactive, IsAt};
ghost use Rattle.jp_automaton.specs.inner.Simulation.{IsPassed};
ghost use Rattle.jp_automaton.specs.inner.Simulation.{IsWalk};

/// A point of the tree: how many positions lie to its left, how many active positions do, and whether it is
/// reached without reading.
#[derive(Clone, Copy)]
pub struct Cursor {
    pub past: u32,
    pub index: usize,
    pub entered: bool,
}

impl Cursor {
    /// Before the first position, reached or not.
    pub(crate) fn start(entered: bool) -> Cursor
        ensures { result ≡ record { past = 0; index = 0; entered = entered } }
    {
        Cursor {
            past: 0,
            index: 0,
            entered,
        }
    }

    /// The same point, reached or not.
    pub(crate) fn with_entered(self, entered: bool) -> Cursor
        ensures { result ≡ entered_as entered self }
    {
        Cursor { entered, ..self }
    }
}

/// Whether the next active position, at this index of the list, is at most `end`.
fn is_active_up_to(active: &[u32], index: usize, end: u32) -> bool
    ensures { result ≡ is_active_up_to active.now index end }
{
    index < active.len() && active[index] <= end
}

/// Behind a part of so many positions, where the walk need not enter it: nothing reached it, and none of
/// its positions is active.
pub(crate) fn passed(active: &[u32], at: Cursor, size: u32) -> Option<Cursor>
    requires fits { at.past + size ≤ max_size }
    requires stands { IsAt active.now at.past at.index }
    ensures passed { IfSome result (IsPassed active.now size at) }
    ensures entered { IfNone result (0 < size) }
{
    if size == 0 {
        return Some(at);
    }
    if at.entered {
        return None;
    }
    if is_active_up_to(active, at.index, at.past + size) {
        return None;
    }
    Some(Cursor {
        past: at.past + size,
        index: at.index,
        entered: false,
    })
}

/// Behind a set of characters.
pub(crate) fn behind_set(active: &[u32], at: Cursor) -> Cursor
    requires fits { at.past < max_size }
    requires stands { IsAt active.now at.past at.index }
    ensures { (set : CharSet) → IsWalk active.now (letter set) at result }
{
    let past = at.past + 1;
    if is_active_up_to(active, at.index, past) {
        Cursor {
            past,
            index: at.index + 1,
            entered: true,
        }
    } else {
        Cursor {
            past,
            index: at.index,
            entered: false,
        }
    }
}

/// How many of the next copies the walk need not enter.
pub(crate) fn idle_copies(active: &[u32], at: Cursor, size: u32, copies: u32) -> u32
    requires some { 0 < size }
    requires fits { at.past + copies * size ≤ max_size }
    requires stands { IsAt active.now at.past at.index }
    ensures few { result ≤ copies }
    ensures not_entered { IsTrue at.entered → result ≡ 0 }
    ensures inactive { Inactive (is_elem active.now) at.past (result * size) }
    ensures stands { IsAt active.now (at.past + result * size) at.index }
{
    if at.entered {
        return 0;
    }
    if at.index >= active.len() {
        return copies;
    }
    let idle = (active[at.index] - at.past - 1) / size;
    idle.min(copies)
}
