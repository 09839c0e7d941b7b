//! The limits of a line that is read flat.

/// The most brackets that are open at once: as many as `Document::read` takes, and one fewer than the tape.
pub(crate) const MAX_LEVEL: u32 = 127;

/// How many members there is room for at first where they are gathered: the list of an object of no more than
/// these grows no further.
pub const MEMBERS_AT_FIRST: usize = 16;

/// The most members that are inserted: more are sorted, since each that is inserted may move all before it.
pub(crate) const MOST_INSERTED: usize = 20;
