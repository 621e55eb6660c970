// What is asked of the chain at a point, by the names of the crate's group.rs. At an empty point there is none.
ghost use Rattle.std.specs.Prelude.{◌||◌, ◌≡◌};
ghost use Rattle.vetting.specs.Answered.{Answered, off_board};
ghost use Rattle.queries.specs.Goban.{no_test};
ghost use Rattle.grouping.specs.Group.{no_chain, told, chain_of, liberty_at};

use board::goban::Board;
use chains::group::Chain;
use points::answers::ACCEPTED;
use points::coord::two_to_1dim;
use points::stones::EMPTY;
use queries::goban::{TestAnswer, owner_at};
use sets::liberties::{contains_liberty as contains, number_of_liberties};
use vetting::answers::{answer_at, answer_at_both};

// The chain at a point, if one is present: its colour, its stones, its liberties, whether it has exactly one, and its least point.
// C reads it, so it has a flag and 0 for every value, and is no Option.
#[repr(C)]
#[derive(Clone, Copy)]
pub struct ChainAnswer {
    pub answer: u8,
    pub present: bool,
    pub colour: u8,
    pub stones: usize,
    pub liberties: usize,
    pub atari: bool,
    pub origin: usize,
}

#[tactic(auto, unfolding(crate::specs::Group::no_chain))]
fn no_chain(answer: u8) -> ChainAnswer
    ensures { result ≡ no_chain answer }
{
    ChainAnswer {
        answer,
        present: false,
        colour: EMPTY,
        stones: 0,
        liberties: 0,
        atari: false,
        origin: 0,
    }
}

// What a slot tells of its chain.
#[tactic(auto, unfolding(crate::specs::Group::told, rules::specs::Answers::number))]
fn tell(chain: Chain) -> ChainAnswer
    ensures { result ≡ told chain }
{
    let liberties = number_of_liberties(chain.liberties);
    ChainAnswer {
        answer: ACCEPTED,
        present: true,
        colour: chain.colour,
        stones: usize::from(chain.count),
        liberties,
        atari: liberties == 1,
        origin: usize::from(chain.origin),
    }
}

pub fn chain_at(board: Board, row: u8, column: u8) -> ChainAnswer
    ensures { Answered board (off_board board row column) no_chain (chain_of board row column) result }
{
    if let Err(refusal) = answer_at(board, row, column) {
        return no_chain(refusal.number());
    }
    let point = two_to_1dim(board.width, row, column);
    match owner_at(&board.owners, point) {
        Some(slot) => tell(board.chains[slot]),
        None => no_chain(ACCEPTED),
    }
}

// The second point is a liberty of the chain at the first.
pub fn contains_liberty(
    board: Board,
    row: u8,
    column: u8,
    other_row: u8,
    other_column: u8,
) -> TestAnswer
    ensures { Answered board (off_board board row column || off_board board other_row other_column) no_test (liberty_at board row column other_row other_column) result }
{
    if let Err(refusal) = answer_at_both(board, row, column, other_row, other_column) {
        return TestAnswer {
            answer: refusal.number(),
            holds: false,
        };
    }
    let point = two_to_1dim(board.width, row, column);
    let Some(slot) = owner_at(&board.owners, point) else {
        return TestAnswer {
            answer: ACCEPTED,
            holds: false,
        };
    };
    let other = two_to_1dim(board.width, other_row, other_column);
    TestAnswer {
        answer: ACCEPTED,
        holds: contains(board.chains[slot].liberties, other),
    }
}
