//! How a long list is cut into halves that are walked at once.

/// Is told of each half of a list that is cut, by the thread that walks it, before it does so.
pub trait Fork {
    /// The first half is 0, and the second is 1.
    fn half(&self, half: u64);
}

/// Does nothing.
#[derive(Clone, Copy)]
pub struct OpenFork;

impl Fork for OpenFork {
    fn half(&self, _half: u64) {}
}

/// From which length on a list is cut, and how many cuts may still lie around it.
#[derive(Clone, Copy)]
pub struct Cuts {
    pub(crate) floor: u64,
    pub(crate) left: u8,
}

impl Cuts {
    ghost use Rattle.std.specs.Prelude.{◌<◌, ◌≤◌, ◌*◌};
    ghost use Rattle.jp_eval.specs.Cuts.{most_walks};

    /// Cuts of each list of at least `floor` members, so that as many walks of one document go on at once as
    /// there are threads, or as the next power of two, and 64 at most. A floor under 2 counts as 2, and no
    /// thread as one, which walks alone.
    pub fn new(floor: u64, threads: u64) -> Cuts
        ensures enough { threads ≤ 64 → threads ≤ most_walks result }
        ensures few { 0 < threads → most_walks result < 2 * threads }
        ensures most { most_walks result ≤ 64 }
    {
        // Each cut makes two walks of one.
        let left = match threads {
            0..=1 => 0,
            2 => 1,
            3..=4 => 2,
            5..=8 => 3,
            9..=16 => 4,
            17..=32 => 5,
            _ => 6,
        };
        Cuts {
            floor: floor.max(2),
            left,
        }
    }
}

/// How a document is walked by halves.
#[derive(Clone, Copy)]
pub struct Halving<'f, F> {
    /// Which lists are cut.
    pub cuts: Cuts,
    /// Is told of each half.
    pub fork: &'f F,
}
