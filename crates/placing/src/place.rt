// Given colours placed on an empty board. Stones are laid one by one; as long as none is taken, the board has the given colours so far,
// and the first that is taken shows a chain without liberty in the whole placement.
ghost use Rattle.std.specs.Prelude.{◌≡◌, not, ◌&&◌, eqb};
ghost use Rattle.placing.specs.Placing.{Placing, PlacedOn};

use board::goban::Board;
use laying::lay::lay;
use points::answers::{ACCEPTED, NO_LIBERTY};
use points::stones::EMPTY;

// What a call that makes a board gives: the answer, and the board. C reads it, and a refused call gives a board too.
#[repr(C)]
#[derive(Clone, Copy)]
pub struct Placed {
    pub answer: u8,
    pub board: Board,
}

// A stone that takes or loses stones shows a chain without liberty.
fn chokes(taken: u16, lost: u16) -> bool
    ensures { result ≡ not (eqb taken 0 && eqb lost 0) }
{
    taken != 0 || lost != 0
}

// The colours laid on an empty board; where a chain of them has no liberty, the board as it came.
pub fn place(board: Board, colours: &[u8]) -> Placed
    requires { Placing board colours.now }
    ensures { PlacedOn board colours.now result }
{
    let mut result = board;
    for (point, colour) in colours.iter().enumerate() {
        if *colour != EMPTY {
            let laid = lay(result, point, *colour, 0);
            if chokes(laid.taken, laid.lost) {
                return Placed {
                    answer: NO_LIBERTY,
                    board,
                };
            }
            result = laid.board;
        }
    }
    Placed {
        answer: ACCEPTED,
        board: result,
    }
}
