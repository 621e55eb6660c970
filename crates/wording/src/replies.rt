// What a reply says of points: a place, the rows of a board, a list.
ghost use Rattle.std.specs.Prelude.{◌≡◌, ◌+◌, ◌*◌, ◌≤◌, ◌++◌, length};
ghost use Rattle.wording.specs.Replies.{placed, sign, starts_row, point, rows_upto, each};
ghost use Rattle.writing.specs.Figures.{spaced};

use arrayvec::ArrayVec;
use points::coord::{column_of, row_of};
use points::stones::{BLACK, WHITE};
use writing::figures::{put_number, put_spaced};

pub const SPACE: u8 = b' ';

pub const DASH: u8 = b'-';

#[tactic(auto, unfolding(writing::specs::Figures::spaced))]
pub fn put_place<const CAPACITY: usize>(
    out: &mut ArrayVec<u8, CAPACITY>,
    width: u8,
    place: Option<usize>,
)
    requires { length out.old.items + 42 ≤ CAPACITY }
    ensures put { out.new.items ≡ out.old.items ++ spaced (placed width place) }
    ensures upper_bound { length out.new.items ≤ length out.old.items + 42 }
{
    match place {
        None => {
            out.push(SPACE);
            out.push(DASH);
        }
        Some(point) => {
            put_spaced(out, row_of(width, point) as u64);
            out.push(b',');
            put_number(out, column_of(width, point) as u64);
        }
    }
}

#[tactic(auto, unfolding(crate::specs::Replies::sign))]
fn point_sign(colour: u8) -> u8
    ensures { result ≡ sign colour }
{
    match colour {
        BLACK => b'X',
        WHITE => b'O',
        _ => b'.',
    }
}

#[tactic(auto, unfolding(crate::specs::Replies::starts_row))]
fn starts_row(width: u8, point: usize) -> bool
    ensures { result ≡ starts_row width point }
{
    0 < point && column_of(width, point) == 0
}

#[tactic(auto, unfolding(crate::specs::Replies::point))]
fn put_point<const CAPACITY: usize>(out: &mut ArrayVec<u8, CAPACITY>, starts: bool, colour: u8)
    requires { length out.old.items + 2 ≤ CAPACITY }
    ensures put { out.new.items ≡ out.old.items ++ point starts colour }
    ensures upper_bound { length out.new.items ≤ length out.old.items + 2 }
{
    if starts {
        out.push(b'/');
    }
    out.push(point_sign(colour));
}

// The rows of a board's points, with a slash between.
pub fn put_rows<const CAPACITY: usize>(out: &mut ArrayVec<u8, CAPACITY>, width: u8, colours: &[u8])
    requires { length out.old.items + 2 * length colours.now ≤ CAPACITY }
    ensures put { out.new.items ≡ out.old.items ++ rows_upto width colours.now (length colours.now) }
    ensures upper_bound { length out.new.items ≤ length out.old.items + 2 * length colours.now }
{
    for (point, &colour) in colours.iter().enumerate() {
        put_point(out, starts_row(width, point), colour);
    }
}

// Points, each behind a space.
pub fn put_points<const CAPACITY: usize>(out: &mut ArrayVec<u8, CAPACITY>, points: &[u16])
    requires { length out.old.items + 21 * length points.now ≤ CAPACITY }
    ensures put { out.new.items ≡ out.old.items ++ each points.now }
    ensures upper_bound { length out.new.items ≤ length out.old.items + 21 * length points.now }
{
    for &point in points {
        put_spaced(out, u64::from(point));
    }
}
