// A handicap: Black stones on the spots of a game in which nothing has happened yet, and White to move.
ghost use Rattle.std.specs.Prelude.{[]};
ghost use Rattle.rules.specs.Calls as rules;
ghost use Rattle.placing.specs.Placing.{spots_of};
ghost use Rattle.game.specs.View.{view_of};
ghost use Rattle.game.specs.Promise.{CalledAlone};

use game::calls::Answered;
use game::judge::judge_state;
use game::state::{Game, Tally};
use placing::handicap::lay_handicap;
use points::answers::{ACCEPTED, DAMAGED, NOT_AT_START};
use points::stones::WHITE;

// A spot is one number: row × 256 + column.
pub fn handicap(game: Game, spots: &[u16]) -> Answered
    ensures { CalledAlone (rules.handicapped (view_of game) [] (spots_of spots.now)) game result.answer result.game }
{
    // held in the answer, as for a stone
    let mut answered = Answered {
        answer: DAMAGED,
        game,
    };
    if !judge_state(&answered.game) {
        return answered;
    }
    if answered.game.begun != 0 {
        answered.answer = NOT_AT_START;
        return answered;
    }
    let placed = lay_handicap(answered.game.board, spots);
    if placed.answer != ACCEPTED {
        answered.answer = placed.answer;
        return answered;
    }
    let count = spots.len() as u16;
    let put = Tally {
        black: answered.game.put.black + (count as u32),
        white: answered.game.put.white,
    };
    let after = Game {
        board: placed.board,
        turn: WHITE,
        begun: 1,
        handicap: count,
        put,
        ..answered.game
    };
    answered.answer = ACCEPTED;
    answered.game = after;
    answered
}
