// What the judge asks of one point after another: its owner, whether it is well placed, whether it was found, and whether the points
// beside it that have its colour have its owner. The arrays are lent. The judge runs at every call: a loop that no way leads out of is
// quicker than `all`, which stops at the first point that fails.
ghost use Rattle.std.specs.Prelude.{◌≡◌, ◌≤◌, ◌<◌, leb};
ghost use Rattle.rules.specs.Sizes.{max_area, slots};
ghost use Rattle.rules.specs.Lists.{all, below};
ghost use Rattle.rules.specs.Points as rules;
ghost use Rattle.owning.specs.Owners as tests;
ghost use Rattle.owning.specs.Owners.{owner_in, placed, row_apart, column_apart, RowStarts};

use chains::group::index;
use points::coord::area;
use points::sizes::{MAX_AREA, SLOTS};

// What owns a point that no chain owns.
pub const NO_CHAIN: u16 = SLOTS as u16;

// The slot that owns the point.
#[tactic(auto, unfolding(crate::specs::Owners::owner_in))]
pub fn owner_at(owners: &[u16; MAX_AREA], point: usize) -> usize
    ensures { result ≡ owner_in owners.now point }
{
    if MAX_AREA <= point {
        return SLOTS;
    }
    index(owners[point])
}

// A point of the board is owned by no chain or by a slot, and a point beyond the board by no chain.
pub fn all_placed(owners: &[u16; MAX_AREA], height: u8, width: u8) -> bool
    requires { rules.area height width ≤ max_area }
    ensures { result ≡ all (placed height width (owner_in owners.now)) (below max_area) }
{
    let end = area(height, width);
    let mut good = true;
    for point in 0..end {
        good &= owners[point] <= NO_CHAIN;
    }
    for point in end..MAX_AREA {
        good &= owners[point] == NO_CHAIN;
    }
    good
}

// No stone is left as its slot's.
pub fn all_found(notes: &[u16; MAX_AREA], height: u8, width: u8) -> bool
    requires { rules.area height width ≤ max_area }
    ensures { result ≡ all (λ p. leb slots (owner_in notes.now p)) (below (rules.area height width)) }
{
    let end = area(height, width);
    let mut good = true;
    for point in 0..end {
        good &= NO_CHAIN <= notes[point];
    }
    good
}

#[tactic(auto, unfolding(crate::specs::Owners::apart, crate::specs::Owners::owner_in))]
fn apart(owners: &[u16; MAX_AREA], notes: &[u16; MAX_AREA], point: usize, beside: usize) -> bool
    requires { (point < max_area) × (beside < max_area) }
    ensures { result ≡ tests.apart (owner_in owners.now) (owner_in notes.now) point beside }
{
    (owners[point] == owners[beside]) | (notes[point] != notes[beside])
}

// Each point and the one to its left.
pub fn rows_apart(
    owners: &[u16; MAX_AREA],
    starts: &[bool; MAX_AREA + 1],
    notes: &[u16; MAX_AREA],
    height: u8,
    width: u8,
) -> bool
    requires { RowStarts height width starts.now × (rules.area height width ≤ max_area) × (0 < rules.area height width) }
    ensures { result ≡ all (row_apart (owner_in owners.now) (owner_in notes.now) width) (below (rules.area height width)) }
{
    let end = area(height, width);
    let mut good = true;
    for point in 1..end {
        good &= starts[point] | apart(owners, notes, point, point - 1);
    }
    good
}

// Each point and the one above.
pub fn columns_apart(
    owners: &[u16; MAX_AREA],
    notes: &[u16; MAX_AREA],
    height: u8,
    width: u8,
) -> bool
    requires { (rules.area height width ≤ max_area) × (width ≤ rules.area height width) }
    ensures { result ≡ all (column_apart (owner_in owners.now) (owner_in notes.now) width) (below (rules.area height width)) }
{
    let end = area(height, width);
    let wide = width as usize;
    let mut good = true;
    for point in wide..end {
        good &= apart(owners, notes, point, point - wide);
    }
    good
}
