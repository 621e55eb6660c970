// The check of a point, by the names of the crate's game.rs. It lays no stone, so no pause is asked for, as in the crate.
ghost use Rattle.std.specs.Prelude.{length};
ghost use Rattle.rules.specs.Answers.{number};
ghost use Rattle.rules.specs.Calls.{check_answer};
ghost use Rattle.points.specs.Reason.{answer_of};
ghost use Rattle.game.specs.View.{view_of, TrueState, RoomIn};
ghost use Rattle.checking.specs.Promise.{Checked};

use crate::point::point_answer;
use game::judge::judge_with;
use game::state::Game;
use points::answers::{Refusal, number};
use points::sizes::MAX_FLAGS;

// The judge, the flags, the point.
fn checked(game: &Game, history: &[u8], flags: u8, row: u8, column: u8) -> Result<(), Refusal>
    ensures { Checked (TrueState game.now × RoomIn game.now (length history.now)) (check_answer (view_of game.now) history.now flags row column) (number (answer_of result)) }
{
    if !judge_with(game, history.len()) {
        return Err(Refusal::Damaged);
    }
    if MAX_FLAGS < flags {
        return Err(Refusal::BadFlags);
    }
    point_answer(game, history, flags, row, column)
}

// By given flags.
pub fn check_point_by(game: Game, history: &[u8], flags: u8, row: u8, column: u8) -> u8
    ensures { Checked (TrueState game × RoomIn game (length history.now)) (check_answer (view_of game) history.now flags row column) result }
{
    number(checked(&game, history, flags, row, column))
}

// By the flags of the game.
pub fn check_point(game: Game, history: &[u8], row: u8, column: u8) -> u8
    ensures { Checked (TrueState game × RoomIn game (length history.now)) (check_answer (view_of game) history.now game.flags row column) result }
{
    number(checked(&game, history, game.flags, row, column))
}
