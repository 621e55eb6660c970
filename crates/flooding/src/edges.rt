// The edges of a board, known with no division: which points begin a row, and where a step to each side leads.
ghost use Rattle.std.specs.Prelude.{◌≡◌, ◌≤◌, ◌<◌};
ghost use Rattle.rules.specs.Sizes.{max_area};
ghost use Rattle.rules.specs.Points as rules;
ghost use Rattle.owning.specs.Owners.{RowStarts};

use points::coord::area;
use points::sizes::MAX_AREA;

// Which points begin a row. There is one place more, for the point behind the last.
pub fn row_starts(height: u8, width: u8) -> [bool; MAX_AREA + 1]
    requires { (0 < width) × (rules.area height width ≤ max_area) }
    ensures { RowStarts height width result }
{
    let mut starts = [false; MAX_AREA + 1];
    let end = area(height, width);
    let wide = width as usize;
    for point in (0..end + 1).step_by(wide) {
        starts[point] = true;
    }
    starts
}

pub fn below(height: u8, width: u8, point: usize) -> Option<usize>
    requires { (point < rules.area height width) × (rules.area height width ≤ max_area) }
    ensures { result ≡ rules.towards height width point rules.forth rules.stay }
{
    let next = point + (width as usize);
    if next < area(height, width) {
        Some(next)
    } else {
        None
    }
}

pub fn above(height: u8, width: u8, point: usize) -> Option<usize>
    requires { point < rules.area height width }
    ensures { result ≡ rules.towards height width point rules.back rules.stay }
{
    point.checked_sub(width as usize)
}

pub fn right(starts: &[bool; MAX_AREA + 1], height: u8, width: u8, point: usize) -> Option<usize>
    requires { RowStarts height width starts.now × (point < rules.area height width) × (rules.area height width ≤ max_area) }
    ensures { result ≡ rules.towards height width point rules.stay rules.forth }
{
    if starts[point + 1] {
        None
    } else {
        Some(point + 1)
    }
}

pub fn left(starts: &[bool; MAX_AREA + 1], height: u8, width: u8, point: usize) -> Option<usize>
    requires { RowStarts height width starts.now × (point < rules.area height width) × (rules.area height width ≤ max_area) }
    ensures { result ≡ rules.towards height width point rules.stay rules.back }
{
    if starts[point] { None } else { Some(point - 1) }
}
