//! Workers beside the calling thread, which answer the blocks of a ring as they come.

ghost use Rattle.std.specs.Prelude.{◌≡◌, All, IfOk, vec_len};
ghost use Rattle.std.specs.Thread.{IsSync};
ghost use Rattle.jp_board.specs.Seats.{IsSeatOf};
ghost use Rattle.jp_answer.specs.Ranges.{AreWorkers};

use crate::answerer::Answerer;
use crate::crew::Crew;
use crate::gate::Gate;
use crate::limits::{BLOCKS, LOOKS, QUICK_LOOKS};
use crate::ring::{Claimed, Ring};
use jp_board::{Board, Seat};
use jp_output::Form;
use std::alloc::AllocError;
use std::hint::spin_loop;
use std::thread::{Threads, join_mut, yield_now};
use std::{mem, thread};

/// What a run gives, which goes on the calling thread while workers answer the blocks that it hands out into
/// a fresh ring. There are so many workers, 1 to 64, of which the calling thread is one; the threads of the
/// others are started once.
///
/// Each of these claims a block's number, looks for the block, 20,000 times at most, tells the gate of the
/// number, puts the answer into the block, and claims on. Where the answer ends at a faulty line it reports
/// the block: those behind it are left. It ends where a block does not come, and where the ring is closed, as
/// it is once the run has ended. Where memory or a thread for a worker is wanted there are fewer, and the run
/// goes on all the same.
pub fn beside_workers<R: Threads + Sync, G: Gate + Sync, F: Form + Drop + Send, P: FnMut() -> X, X>(
    crew: &Crew<R, G>,
    ring: &Ring<'_, F>,
    workers: u64,
    run: &mut P,
) -> X
    requires workers { AreWorkers workers }
    requires run { P.pre run.old }
    ensures run { P.step run.old result run.new }
{
    if workers == 1 {
        return run();
    }
    let Ok((board, seats)) = Board::new(crew.alloc, BLOCKS, workers - 1) else {
        return run();
    };
    let (done, given) = at_once::<R, G, F, P, X>(crew, ring, &board, seats, run);
    if let Ok(seats) = done {
        drop(board.close(seats));
    }
    given
}

/// All seats answer blocks, in threads of their own, while the run goes on on this one.
fn at_once<R: Threads + Sync, G: Gate + Sync, F: Form + Drop + Send, P: FnMut() -> X, X>(
    crew: &Crew<R, G>,
    ring: &Ring<'_, F>,
    board: &Board,
    seats: Vec<Seat>,
    run: &mut P,
) -> (Result<Vec<Seat>, AllocError>, X)
    requires seats { All (IsSeatOf board.now) seats.items }
    requires run { P.pre run.old }
    ensures len { IfOk result.0 (λ v. vec_len v ≡ vec_len seats) }
    ensures seats { IfOk result.0 (λ v. All (IsSeatOf board.now) v.items) }
    ensures run { P.step run.old result.1 run.new }
{
    let mut dealt = seats;
    let mut answering = || -> Result<Vec<Seat>, AllocError>
        requires { IsSync R.row × IsSync G.row × All (IsSeatOf board.now) dealt.items }
        ensures { IfOk result (λ v. (vec_len v ≡ vec_len dealt.entry)
            × All (IsSeatOf board.entry.now) v.items) }
    {
        let seats = mem::replace(&mut dealt, Vec::new(crew.alloc));
        all_answer::<R, G, F>(crew, ring, board, seats)
    };
    let mut running = || -> X
        requires { P.pre run.now }
        ensures { P.step run.entry.now result run.exit.now }
    {
        let given = run();
        ring.close();
        given
    };
    join_mut(crew.rt, &mut answering, &mut running)
}

/// All seats answer blocks at once.
fn all_answer<R: Threads + Sync, G: Gate + Sync, F: Form + Drop + Send>(
    crew: &Crew<R, G>,
    ring: &Ring<'_, F>,
    board: &Board,
    seats: Vec<Seat>,
) -> Result<Vec<Seat>, AllocError>
    requires seats { All (IsSeatOf board.now) seats.items }
    ensures len { IfOk result (λ v. vec_len v ≡ vec_len seats) }
    ensures seats { IfOk result (λ v. All (IsSeatOf board.now) v.items) }
{
    thread::map_vec(
        crew.rt,
        seats,
        &|seat: Seat| -> Seat
            requires { IsSync R.row × IsSync G.row × IsSeatOf board.now seat }
            ensures { IsSeatOf board.entry.now result }
        { answer_blocks::<R, G, F>(crew, ring, board, seat) },
    )
}

/// Claims blocks, and answers each, until one does not come for long, or no more come. Gives the seat back.
fn answer_blocks<R: Threads + Sync, G: Gate, F: Form + Drop + Send>(
    crew: &Crew<R, G>,
    ring: &Ring<'_, F>,
    board: &Board,
    seat: Seat,
) -> Seat
    requires { IsSeatOf board.now seat }
    ensures { IsSeatOf board.now result }
{
    let mut own = seat;
    // For all blocks of this worker's: a reader's arena can't cross to another thread (README, Each worker
    // makes its own reader).
    let mut answerer = Answerer::new(crew.alloc);
    for _claim in 0..BLOCKS {
        let Some(number) = board.claim(&mut own) else {
            break;
        };
        match look(ring, number) {
            Claimed::Here(block) => {
                crew.gate.pass(number);
                // Behind a block at whose faulty line the answer ends none is written.
                if number < board.look(&mut own) {
                    answerer.fill(crew, &block);
                    if block.ends() {
                        board.report(&mut own, number);
                    }
                }
            }
            Claimed::Gone => {}
            Claimed::NotYet => break,
        }
    }
    ring.end();
    own
}

/// Looks for the block of a number, for a while, as long as it may still be handed out.
fn look<'q, F: Form + Drop>(ring: &Ring<'q, F>, number: u64) -> Claimed<'q, F> {
    for time in 0..LOOKS {
        // Asked before the cell is looked at: what is handed out before the end is found.
        let is_last = ring.is_closed();
        match ring.claimed(number) {
            Claimed::NotYet => {}
            found => return found,
        }
        if is_last {
            break;
        }
        if time < QUICK_LOOKS {
            spin_loop();
        } else {
            yield_now();
        }
    }
    Claimed::NotYet
}
