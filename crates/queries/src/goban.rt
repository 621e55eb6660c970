// What is asked of a board's points, by the names of the crate's goban.rs. A query that refuses gives 0 for every value.
// C reads what the queries give, so each is a struct with the answer's number, and no Result.
ghost use Rattle.std.specs.Prelude.{◌≡◌, get_or};
ghost use Rattle.rules.specs.Sizes.{slots};
ghost use Rattle.rules.specs.Lists.{any};
ghost use Rattle.rules.specs.Colours.{at};
ghost use Rattle.rules.specs.Points as points;
ghost use Rattle.board.specs.Board.{colours_of};
ghost use Rattle.board.specs.True.{TrueBoard};
ghost use Rattle.vetting.specs.Answered.{Answered, off_board};
ghost use Rattle.queries.specs.Goban.{owner_of, unowned, no_colour, colour_of, no_test, breathes};

use board::goban::Board;
use points::answers::ACCEPTED;
use points::coord::{sides, two_to_1dim};
use points::sizes::{MAX_AREA, SLOTS};
use points::stones::EMPTY;
use vetting::answers::answer_at;

#[repr(C)]
#[derive(Clone, Copy)]
pub struct ColourAnswer {
    pub answer: u8,
    pub colour: u8,
}

// Whether what was asked holds.
#[repr(C)]
#[derive(Clone, Copy)]
pub struct TestAnswer {
    pub answer: u8,
    pub holds: bool,
}

// The slot of the chain that owns the point, if there is one; beyond the largest board there is none.
pub fn owner_at(owners: &[u16; MAX_AREA], point: usize) -> Option<usize>
    ensures { result ≡ owner_of (get_or owners.now point slots) }
{
    let owner = usize::from(*owners.get(point)?);
    if owner < SLOTS { Some(owner) } else { None }
}

// The colour of a point of a true board: that of the chain that owns it.
fn colour_at(board: &Board, point: usize) -> u8
    requires { TrueBoard board.now }
    ensures { result ≡ at (colours_of board.now) point }
{
    match owner_at(&board.owners, point) {
        Some(slot) => board.chains[slot].colour,
        None => EMPTY,
    }
}

// The colour of a point: the stone's colour, or empty.
pub fn get_color(board: Board, row: u8, column: u8) -> ColourAnswer
    ensures { Answered board (off_board board row column) no_colour (colour_of board row column) result }
{
    if let Err(refusal) = answer_at(board, row, column) {
        return ColourAnswer {
            answer: refusal.number(),
            colour: EMPTY,
        };
    }
    let point = two_to_1dim(board.width, row, column);
    ColourAnswer {
        answer: ACCEPTED,
        colour: colour_at(&board, point),
    }
}

fn is_unowned(owners: &[u16; MAX_AREA], point: usize) -> bool
    ensures { result ≡ unowned owners.now point }
{
    owner_at(owners, point).is_none()
}

// No chain owns one of the points beside.
#[tactic(auto, unfolding(rules::specs::Points::neighbours))]
fn beside_empty(owners: &[u16; MAX_AREA], height: u8, width: u8, point: usize) -> bool
    ensures { result ≡ any (unowned owners.now) (points.neighbours height width point) }
{
    sides(height, width, point)
        .iter()
        .filter_map(|side| *side)
        .any(|q| is_unowned(owners, q))
}

// The point has an empty neighbour.
pub fn has_liberties(board: Board, row: u8, column: u8) -> TestAnswer
    ensures { Answered board (off_board board row column) no_test (breathes board row column) result }
{
    if let Err(refusal) = answer_at(board, row, column) {
        return TestAnswer {
            answer: refusal.number(),
            holds: false,
        };
    }
    let point = two_to_1dim(board.width, row, column);
    TestAnswer {
        answer: ACCEPTED,
        holds: beside_empty(&board.owners, board.height, board.width, point),
    }
}
