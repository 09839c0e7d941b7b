ghost use Rattle.std.specs.Prelude.{◌≤◌, length};
ghost use Rattle.jp_board.specs.Seats.{IsSeatOf, pieces_of};

use jp_board::{Board, Seat};
use jp_doc::Location;
use jp_output::write_path;
use jp_regexp::Pattern;
use std::alloc::{AllocError, Global};

/// Claims the next of some numbered locations, and gives its path where the pattern is found in that.
fn next_path(
    alloc: Global,
    board: &Board,
    seat: &mut Seat,
    locations: &[Location],
    pattern: &Pattern,
) -> Result<Option<String>, AllocError>
    requires seat { IsSeatOf board.now seat.old }
    requires numbered { pieces_of board.now ≤ length locations.now }
    ensures seat { IsSeatOf board.now seat.new }
{
    let Some(piece) = board.claim(seat) else {
        return Ok(None);
    };
    let path = write_path(alloc, &locations[piece as usize])?;
    if pattern.found_in(alloc, path.as_str())? {
        Ok(Some(path))
    } else {
        Ok(None)
    }
}
