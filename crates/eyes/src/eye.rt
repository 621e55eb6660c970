// The test of eyes, on the colours of the board's points: the crate's `check_eye` and its helper.
ghost use Rattle.std.specs.Prelude.{◌||◌, ◌≡◌, eqb};
ghost use Rattle.rules.specs.Lists.{any, all};
ghost use Rattle.rules.specs.Colours.{at};
ghost use Rattle.rules.specs.Points.{neighbours};
ghost use Rattle.rules.specs.Tests as tests;
ghost use Rattle.eyes.specs.Eye.{scanned};

use points::coord::{corners, sides};
use points::sizes::MAX_AREA;
use points::stones::{EMPTY, colour_at, other};

// All points beside the point have the colour.
#[tactic(auto, unfolding(rules::specs::Points::neighbours))]
fn is_surrounded(colours: &[u8; MAX_AREA], height: u8, width: u8, point: usize, colour: u8) -> bool
    ensures { result ≡ all (λ q. eqb (at colours.now q) colour) (neighbours height width point) }
{
    sides(height, width, point)
        .iter()
        .filter_map(|side| *side)
        .all(|q| colour_at(colours, q) == colour)
}

// Some point beside the point has the colour.
#[tactic(auto, unfolding(rules::specs::Points::neighbours))]
fn is_beside(colours: &[u8; MAX_AREA], height: u8, width: u8, point: usize, colour: u8) -> bool
    ensures { result ≡ any (λ q. eqb (at colours.now q) colour) (neighbours height width point) }
{
    sides(height, width, point)
        .iter()
        .filter_map(|side| *side)
        .any(|q| colour_at(colours, q) == colour)
}

// The corner is off the board or has a stone of the colour.
#[tactic(auto, unfolding(rules::specs::Tests::friendly))]
fn is_friendly(
    colours: &[u8; MAX_AREA],
    height: u8,
    width: u8,
    corner: Option<usize>,
    colour: u8,
) -> bool
    ensures { result ≡ tests.friendly height width colours.now colour corner }
{
    match corner {
        Some(q) => colour_at(colours, q) == colour,
        None => true,
    }
}

// How many of the four corners are so.
fn friendly_corners(
    colours: &[u8; MAX_AREA],
    height: u8,
    width: u8,
    point: usize,
    colour: u8,
) -> usize
    ensures { result ≡ tests.friendly_corners height width colours.now colour point }
{
    corners(height, width, point)
        .iter()
        .filter(|corner| is_friendly(colours, height, width, **corner, colour))
        .count()
}

fn two_or_three(number: usize) -> bool
    ensures { result ≡ eqb number 2 || eqb number 3 }
{
    number == 2 || number == 3
}

// What the corner says, where the point is surrounded and has two or three friendly corners: whether the point is an eye, or nothing.
#[tactic(auto, unfolding(crate::specs::Eye::scanned, crate::specs::Eye::said, rules::specs::Tests::two_or_three))]
fn scan(
    colours: &[u8; MAX_AREA],
    height: u8,
    width: u8,
    corner: Option<usize>,
    colour: u8,
) -> Option<bool>
    ensures { result ≡ scanned height width colours.now colour corner }
{
    let place = corner?;
    if colour_at(colours, place) != EMPTY {
        return None;
    }
    if is_beside(colours, height, width, place, other(colour)) {
        return Some(false);
    }
    if two_or_three(friendly_corners(colours, height, width, place, colour)) {
        return Some(true);
    }
    None
}

// The empty corners in order, up to the first that decides.
fn eye_among(colours: &[u8; MAX_AREA], height: u8, width: u8, point: usize, colour: u8) -> bool
    ensures { result ≡ tests.eye_among height width colours.now colour (tests.empty_corners height width colours.now point) }
{
    for corner in corners(height, width, point) {
        if let Some(is_eye) = scan(colours, height, width, corner, colour) {
            return is_eye;
        }
    }
    false
}

// The point is an eye of the colour. Of the colours only those of the board's points are asked.
#[tactic(auto, unfolding(rules::specs::Tests::eye, rules::specs::Tests::two_or_three))]
pub fn is_eye(colours: &[u8; MAX_AREA], height: u8, width: u8, point: usize, colour: u8) -> bool
    ensures { result ≡ tests.eye height width colours.now colour point }
{
    if !is_surrounded(colours, height, width, point, colour) {
        return false;
    }
    let friends = friendly_corners(colours, height, width, point, colour);
    if friends == 4 {
        return true;
    }
    two_or_three(friends) && eye_among(colours, height, width, point, colour)
}
