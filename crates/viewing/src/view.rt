// What a board shows of each point: its colour, and the least point of its chain. Numbers that the lists and the picture are made from.
ghost use Rattle.std.specs.Prelude.{◌≡◌};
ghost use Rattle.viewing.specs.View.{view_of};

use board::goban::Board;
use points::sizes::{MAX_AREA, SLOTS};
use points::stones::EMPTY;

// Where no chain is: the number of no point.
pub const NO_POINT: u16 = MAX_AREA as u16;

// These are two arrays, since the colours are lent alone to the picture.
#[derive(Clone, Copy)]
pub struct View {
    pub colours: [u8; MAX_AREA],
    pub leads: [u16; MAX_AREA],
}

// Any board, true or not: a number that is no slot means no chain.
pub fn view_of(board: Board) -> View
    ensures { result ≡ view_of board }
{
    let mut colours = [EMPTY; MAX_AREA];
    let mut leads = [NO_POINT; MAX_AREA];
    for point in 0..MAX_AREA {
        let owner = usize::from(board.owners[point]);
        let (colour, lead) = if owner < SLOTS {
            (board.chains[owner].colour, board.chains[owner].origin)
        } else {
            (EMPTY, NO_POINT)
        };
        colours[point] = colour;
        leads[point] = lead;
    }
    View { colours, leads }
}
