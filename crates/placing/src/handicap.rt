// A handicap's stones, laid on an empty board. The spots are gone through first, for those off the board or given twice; then the
// stones that they make are placed.
ghost use Rattle.rules.specs.Game.{TrueSize};
ghost use Rattle.placing.specs.Placing.{Bare, spots_of, MarkedOut, Handicapped};

use crate::place::{Placed, place};
use board::goban::Board;
use points::answers::Refusal;
use points::coord::{area, is_coord_valid, two_to_1dim};
use points::sizes::MAX_AREA;
use points::stones::{BLACK, EMPTY};

// The spots' stones as the colours of points. A spot is one number: row × 256 + column.
fn mark(height: u8, width: u8, spots: &[u16]) -> Result<[u8; MAX_AREA], Refusal>
    requires { TrueSize height width }
    ensures { MarkedOut height width (spots_of spots.now) result }
{
    let mut colours = [EMPTY; MAX_AREA];
    for spot in spots {
        let row = (*spot / 256) as u8;
        let column = (*spot % 256) as u8;
        if !is_coord_valid(height, width, row, column) {
            return Err(Refusal::OffBoard);
        }
        let point = two_to_1dim(width, row, column);
        if colours[point] != EMPTY {
            return Err(Refusal::PointNotEmpty);
        }
        colours[point] = BLACK;
    }
    Ok(colours)
}

pub fn lay_handicap(board: Board, spots: &[u16]) -> Placed
    requires { Bare board }
    ensures { Handicapped board (spots_of spots.now) result }
{
    match mark(board.height, board.width, spots) {
        Ok(colours) => {
            let end = area(board.height, board.width);
            place(board, &colours[..end])
        }
        Err(reason) => Placed {
            answer: reason.number(),
            board,
        },
    }
}
