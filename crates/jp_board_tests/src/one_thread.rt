//! Boards that one thread works at, with one seat or two.
ghost use Rattle.std.specs.Prelude.{◌≡◌, IfSome};
ghost use Rattle.jp_board.specs.Seats.{IsSeatOf};

use jp_board::{Board, BoardFault, CloseFault, Seat, Tally};
use std::alloc::Global;
use std::test::Fail;

/// A board of two seats.
fn two_seats(alloc: Global, pieces: u64) -> Option<(Board, Seat, Seat)>
    ensures { IfSome result (λ r. IsSeatOf r.0 r.1 × IsSeatOf r.0 r.2) }
{
    let (board, mut seats) = Board::new(alloc, pieces, 2).ok()?;
    let b = seats.pop()?;
    let a = seats.pop()?;
    Some((board, a, b))
}

/// What the two seats of a board did together.
fn close(alloc: Global, board: Board, a: Seat, b: Seat) -> Option<Tally>
    requires { IsSeatOf board a × IsSeatOf board b }
{
    let mut seats = Vec::new(alloc);
    seats.push(a).ok()?;
    seats.push(b).ok()?;
    board.close(seats).ok()
}

#[test]
fn two_seats_claim_three_pieces(rt: HostRuntime) {
    let Some((board, mut a, mut b)) = two_seats(rt.alloc(), 3) else {
        panic!(&rt; "no board")
    };
    let claims = [
        board.claim(&mut a),
        board.claim(&mut b),
        board.claim(&mut a),
        board.claim(&mut b),
        board.claim(&mut b),
    ];
    assert!(&rt; claims == [Some(0), Some(1), Some(2), None, None]);
    let tally = close(rt.alloc(), board, a, b);
    assert!(&rt;
        tally
            == Some(Tally {
                claimed: 3,
                least: 3
            })
    );
}

#[test]
fn two_seats_report_and_look(rt: HostRuntime) {
    let Some((board, mut a, mut b)) = two_seats(rt.alloc(), 3) else {
        panic!(&rt; "no board")
    };
    let _first = board.claim(&mut a);
    let (Some(middle), Some(last)) = (board.claim(&mut b), board.claim(&mut a)) else {
        panic!(&rt; "two pieces are left")
    };
    board.report(&mut a, last);
    let seen = board.look(&mut b);
    board.report(&mut b, middle);
    let seen_later = board.look(&mut a);
    assert!(&rt; (seen, seen_later) == (2, 1));
    let tally = close(rt.alloc(), board, a, b);
    assert!(&rt;
        tally
            == Some(Tally {
                claimed: 3,
                least: 1
            })
    );
}

#[test]
fn a_board_goes_on_after_a_seat_was_missing(rt: HostRuntime) -> Result<(), Fail> {
    let Some((board, mut a, mut b)) = two_seats(rt.alloc(), 2) else {
        panic!(&rt; "no board")
    };
    let first = board.claim(&mut a);
    let mut seats = Vec::new(rt.alloc());
    seats.push(a)?;
    let Err(CloseFault::Missing { board, mut seats }) = board.close(seats) else {
        panic!(&rt; "one seat is missing")
    };
    let second = board.claim(&mut b);
    assert!(&rt; (seats.len(), first, second) == (1, Some(0), Some(1)));
    seats.push(b)?;
    let tally = board.close(seats).ok();
    assert!(&rt;
        tally
            == Some(Tally {
                claimed: 2,
                least: 2
            })
    );
    Ok(())
}

#[test]
fn no_piece(rt: HostRuntime) -> Result<(), Fail> {
    let (board, mut seats) = Board::new(rt.alloc(), 0, 1)?;
    let Some(mut a) = seats.pop() else {
        panic!(&rt; "no seat")
    };
    let answers = (board.claim(&mut a), board.look(&mut a));
    assert!(&rt; answers == (None, 0));
    seats.push(a)?;
    let tally = board.close(seats).ok();
    assert!(&rt;
        tally
            == Some(Tally {
                claimed: 0,
                least: 0
            })
    );
    Ok(())
}

#[test]
fn too_many_or_no_seat(rt: HostRuntime) {
    for (pieces, seats) in [(1, 0), (1, 65), (4_294_967_297, 1)] {
        let fault = Board::new(rt.alloc(), pieces, seats).err();
        assert!(&rt; fault == Some(BoardFault::TooMany));
    }
}

#[test]
fn the_largest_board(rt: HostRuntime) -> Result<(), Fail> {
    let (board, mut seats) = Board::new(rt.alloc(), 4_294_967_296, 64)?;
    assert!(&rt; seats.len() == 64);
    let Some(mut first) = seats.pop() else {
        panic!(&rt; "no seat")
    };
    assert!(&rt; board.claim(&mut first) == Some(0));
    Ok(())
}

#[test]
fn faults_have_their_texts(rt: HostRuntime) -> Result<(), Fail> {
    let many = "a board has at most 4294967296 pieces and 1 to 64 seats";
    for (fault, text) in [(BoardFault::TooMany, many), (BoardFault::Memory, "memory")] {
        assert!(&rt; format!(in rt.alloc(); "{fault}")?.as_str() == text);
    }
    Ok(())
}
