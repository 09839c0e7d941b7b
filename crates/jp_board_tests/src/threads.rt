//! Boards that several threads share.
ghost use Rattle.std.specs.Prelude.{◌≡◌, All, IfOk, vec_len};
ghost use Rattle.jp_board.specs.Seats.{IsSeatOf, made_of};

use jp_board::{Board, Seat, Tally};
use std::alloc::{AllocError, Global};
use std::sync::Wait;
use std::sync::atomic::{AtomicBool, AtomicU64, Ordering};
use std::test::Fail;
use std::thread;
use std::thread::{Promise, Threads};

const PIECES: u64 = 10_000;

/// A count of 0 for each piece.
fn no_counts(alloc: Global) -> Result<Vec<AtomicU64>, AllocError> {
    let mut counts = Vec::new(alloc);
    for _ in 0..PIECES {
        counts.push(AtomicU64::new(0))?;
    }
    Ok(counts)
}

/// Claims until no piece is left, counts each claim, and reports what is 5,000 or more and a multiple of
/// 1,000.
fn claims_all(board: &Board, mut seat: Seat, counts: &[AtomicU64]) -> Seat
    requires { IsSeatOf board.now seat }
    ensures { IsSeatOf board.now result }
{
    for _ in 0..=PIECES {
        let Some(piece) = board.claim(&mut seat) else {
            break;
        };
        if piece >= 5_000 && piece % 1_000 == 0 {
            board.report(&mut seat, piece);
        }
        if let Some(count) = counts.get(piece as usize) {
            count.fetch_add(1, Ordering::SeqCst);
        }
    }
    seat
}

/// Each seat claims on a thread of its own.
fn claims_at_once<R: Threads + Sync>(
    rt: &R,
    board: &Board,
    seats: Vec<Seat>,
    counts: &[AtomicU64],
) -> Result<Vec<Seat>, AllocError>
    requires { All (IsSeatOf board.now) seats.items }
    ensures { IfOk result (λ v. All (IsSeatOf board.now) v.items) }
{
    thread::map_vec(
        rt,
        seats,
        &|seat: Seat| -> Seat
            requires { IsSeatOf board.now seat }
            ensures { IsSeatOf board.entry.now result }
        { claims_all(board, seat, counts) },
    )
}

/// That a thread gives back a seat of this board.
#[derive(Clone, Copy)]
struct SeatOf<'a>(&'a Board);

impl<'a> Promise<Seat> for SeatOf<'a> {
    ghost kept_by = { λ p s. IsSeatOf p.0.now s };
}

/// Two seats claim on threads of a scope.
fn claims_in_a_scope<R: Threads + Wait>(
    rt: &R,
    board: &Board,
    one: Seat,
    other: Seat,
    counts: &[AtomicU64],
) -> Result<(Seat, Seat), AllocError>
    requires one { IsSeatOf board.now one }
    requires other { IsSeatOf board.now other }
    ensures one { IfOk result (λ p. IsSeatOf board.now p.0) }
    ensures other { IfOk result (λ p. IsSeatOf board.now p.1) }
{
    thread::scope(
        thread::scope_env(),
        rt,
        |scope| -> Result<(Seat, Seat), AllocError>
            requires one { IsSeatOf board.now one }
            requires other { IsSeatOf board.now other }
            ensures one { IfOk result (λ p. IsSeatOf board.entry.now p.0) }
            ensures other { IfOk result (λ p. IsSeatOf board.entry.now p.1) }
        {
            let first = scope.spawn_with(
                SeatOf(board),
                move || -> Seat
                    requires { IsSeatOf board.now one }
                    ensures { IsSeatOf board.entry.now result }
                { claims_all(board, one, counts) },
            )?;
            let second = scope.spawn_with(
                SeatOf(board),
                move || -> Seat
                    requires { IsSeatOf board.now other }
                    ensures { IsSeatOf board.entry.now result }
                { claims_all(board, other, counts) },
            )?;
            Ok((first.join(rt), second.join(rt)))
        },
    )
}

#[test]
fn two_threads_of_a_scope_claim_each_piece_once(rt: HostRuntime) -> Result<(), Fail> {
    let counts = no_counts(rt.alloc())?;
    let (board, mut seats) = Board::new(rt.alloc(), PIECES, 2)?;
    let (Some(b), Some(a)) = (seats.pop(), seats.pop()) else {
        panic!(&rt; "no seat")
    };
    let (a, b) = claims_in_a_scope(&rt, &board, a, b, &counts)?;
    let tally = board.close(vec![in rt.alloc(); a, b]?).ok();
    assert!(&rt;
        tally
            == Some(Tally {
                claimed: PIECES,
                least: 5_000
            })
    );
    let all_once = counts.iter().all(|count| count.load(Ordering::SeqCst) == 1);
    assert!(&rt; all_once);
    Ok(())
}

#[test]
fn four_threads_claim_each_piece_once(rt: HostRuntime) -> Result<(), Fail> {
    let counts = no_counts(rt.alloc())?;
    let (board, seats) = Board::new(rt.alloc(), PIECES, 4)?;
    let seats = claims_at_once(&rt, &board, seats, &counts)?;
    let tally = board.close(seats).ok();
    assert!(&rt;
        tally
            == Some(Tally {
                claimed: PIECES,
                least: 5_000
            })
    );
    let all_once = counts.iter().all(|count| count.load(Ordering::SeqCst) == 1);
    assert!(&rt; all_once);
    Ok(())
}

/// Claims a piece, reports it and sets the flag. Whether that was piece 0.
fn reports_and_sets(board: &Board, mut seat: Seat, flag: &AtomicBool) -> bool
    requires { IsSeatOf board.now seat }
{
    let claimed = board.claim(&mut seat);
    if let Some(piece) = claimed {
        board.report(&mut seat, piece);
    }
    flag.store(true, Ordering::SeqCst);
    claimed == Some(0)
}

/// Waits for the flag and looks. Whether the mark is 0 then.
fn waits_and_looks(board: &Board, mut seat: Seat, flag: &AtomicBool) -> bool
    requires { IsSeatOf board.now seat }
{
    let mut set = false;
    for _ in 0..10_000_000 {
        if flag.load(Ordering::SeqCst) {
            set = true;
            break;
        }
        thread::yield_now();
    }
    let mark = board.look(&mut seat);
    set && mark == 0
}

#[test]
fn a_look_shows_what_another_thread_reported(rt: HostRuntime) -> Result<(), Fail> {
    let (board, mut seats) = Board::new(rt.alloc(), 1, 2)?;
    let (Some(b), Some(a)) = (seats.pop(), seats.pop()) else {
        panic!(&rt; "no seat")
    };
    let flag = AtomicBool::new(false);
    let (shared, set) = (&board, &flag);
    let (claimed, seen) = thread::join(
        &rt,
        move || -> bool
            requires { IsSeatOf shared.now a }
        { reports_and_sets(shared, a, set) },
        move || -> bool
            requires { IsSeatOf shared.now b }
        { waits_and_looks(shared, b, set) },
    );
    assert!(&rt; claimed && seen);
    Ok(())
}
