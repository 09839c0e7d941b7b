ghost use Rattle.jp_board.specs.Seats.{IsSeatOf};

use jp_board::{Board, Seat};

// Claims the next piece and reports it, and gives the least report that is seen then.
fn claim_and_report(board: &Board, seat: &mut Seat) -> Option<u64>
    requires { IsSeatOf board.now seat.old }
    ensures { IsSeatOf board.now seat.new }
{
    let piece = board.claim(seat)?;
    board.report(seat, piece);
    Some(board.look(seat))
}
