// What a game shows of its board: the empty points, and the board itself.
ghost use Rattle.std.specs.Prelude.{length};
ghost use Rattle.rules.specs.Colours.{empty};
ghost use Rattle.board.specs.Board.{colours_of};
ghost use Rattle.viewing.specs.declared.shows.Question.TheVariants.{Coloured};
ghost use Rattle.listing.specs.Lists.{list_answer, listed};
ghost use Rattle.game.specs.View.{TrueState};
ghost use Rattle.checking.specs.Promise.{Filled};
ghost use Rattle.showing.specs.Promise.{Shown};

use board::goban::{Board, empty_board};
use game::judge::judge_state;
use game::state::Game;
use gathering::list::get_empty_coords;
use listing::list::Listed;
use points::answers::{ACCEPTED, DAMAGED};

// The points where a stone can be laid if no rule forbids it, the crate's `pseudo_legals`.
pub fn empty_points(game: Game, buffer: &mut [u16]) -> Listed
    ensures { Filled (TrueState game) (list_answer game.board.height game.board.width (length buffer.old) (Coloured empty)) (listed game.board.height game.board.width (colours_of game.board) (Coloured empty)) buffer.old result buffer.new }
{
    if !judge_state(&game) {
        return Listed {
            number: DAMAGED,
            count: 0,
        };
    }
    get_empty_coords(game.board, buffer)
}

// A board, with the number of the answer.
#[repr(C)]
#[derive(Clone, Copy)]
pub struct BoardAnswer {
    pub answer: u8,
    pub board: Board,
}

// The crate's `goban`; an empty board of one point where the state is damaged.
pub fn board_of(game: Game) -> BoardAnswer
    ensures { Shown game result }
{
    if !judge_state(&game) {
        return BoardAnswer {
            answer: DAMAGED,
            board: empty_board(1, 1),
        };
    }
    BoardAnswer {
        answer: ACCEPTED,
        board: game.board,
    }
}
