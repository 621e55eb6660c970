// Where a stone would go: a row and a column, looked up among the colours that are seen of a board.
ghost use Rattle.std.specs.Prelude.{◌≡◌};
ghost use Rattle.checking.specs.Spot.{spot_of};

use points::coord::{is_coord_valid, two_to_1dim};
use points::sizes::MAX_AREA;
use points::stones::{EMPTY, colour_at};

// Off the board, a point where a stone stands, or an empty point: three cases, since a stone there is no refusal where a test alone is asked.
#[derive(Clone, Copy)]
pub enum Spot {
    Off,
    Stone,
    Empty(usize),
}

pub fn spot_of(colours: &[u8; MAX_AREA], height: u8, width: u8, row: u8, column: u8) -> Spot
    ensures { result ≡ spot_of height width colours.now row column }
{
    if !is_coord_valid(height, width, row, column) {
        return Spot::Off;
    }
    let point = two_to_1dim(width, row, column);
    if colour_at(colours, point) != EMPTY {
        return Spot::Stone;
    }
    Spot::Empty(point)
}
