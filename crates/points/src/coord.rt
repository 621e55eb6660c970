// Points of a board: their numbers, rows and columns, which `grid` has, and the points beside and across. A point that is off the
// board lies beside nothing.
ghost use Rattle.std.specs.Prelude.{◌≡◌, ◌<◌};
ghost use Rattle.rules.specs.Points as points;
ghost use Rattle.points.specs.Place.{shift_of};

pub use grid::coord::{area, column_of, is_coord_valid, on_board, row_of, two_to_1dim};

// One step along a row or a column: to the lesser, none, to the greater.
#[derive(Clone, Copy)]
pub enum Shift {
    Back,
    Stay,
    Forth,
}

// One step along a row or a column of n places.
fn shifted(shift: Shift, n: usize, x: usize) -> Option<usize>
    ensures { result ≡ points.shifted (shift_of shift) n x }
{
    match shift {
        Shift::Back => x.checked_sub(1),
        Shift::Stay => Some(x),
        Shift::Forth => {
            if n <= x {
                return None;
            }
            if x + 1 < n {
                return Some(x + 1);
            }
            None
        }
    }
}

// One step from a row and a column of the board.
fn stepped(
    height: u8,
    width: u8,
    row: usize,
    column: usize,
    down: Shift,
    right: Shift,
) -> Option<usize>
    requires { (row < height) × (column < width) }
    ensures { result ≡ points.joined width (points.shifted (shift_of down) height row) (points.shifted (shift_of right) width column) }
{
    let r = shifted(down, height as usize, row)?;
    let c = shifted(right, width as usize, column)?;
    Some(r * (width as usize) + c)
}

// One step from a point.
fn towards(height: u8, width: u8, point: usize, down: Shift, right: Shift) -> Option<usize>
    ensures { result ≡ points.towards height width point (shift_of down) (shift_of right) }
{
    if area(height, width) <= point {
        return None;
    }
    stepped(
        height,
        width,
        row_of(width, point),
        column_of(width, point),
        down,
        right,
    )
}

// The points on the four sides: below, above, right, left, in the order of the crate's `neighbor_coords`.
#[tactic(auto, unfolding(rules::specs::Points::sides))]
pub fn sides(height: u8, width: u8, point: usize) -> [Option<usize>; 4]
    ensures { result ≡ points.sides height width point }
{
    [
        towards(height, width, point, Shift::Forth, Shift::Stay),
        towards(height, width, point, Shift::Back, Shift::Stay),
        towards(height, width, point, Shift::Stay, Shift::Forth),
        towards(height, width, point, Shift::Stay, Shift::Back),
    ]
}

// The points at the four corners, in the order of the crate's `corner_points`.
#[tactic(auto, unfolding(rules::specs::Points::corners))]
pub fn corners(height: u8, width: u8, point: usize) -> [Option<usize>; 4]
    ensures { result ≡ points.corners height width point }
{
    [
        towards(height, width, point, Shift::Forth, Shift::Forth),
        towards(height, width, point, Shift::Back, Shift::Back),
        towards(height, width, point, Shift::Forth, Shift::Back),
        towards(height, width, point, Shift::Back, Shift::Forth),
    ]
}
