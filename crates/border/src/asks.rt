// What is asked of a game by value.
ghost use Rattle.std.specs.Prelude.{◌≡◌, true, length};
ghost use Rattle.rules.specs.Colours.{empty};
ghost use Rattle.rules.specs.Calls as rules;
ghost use Rattle.board.specs.Board.{colours_of};
ghost use Rattle.viewing.specs.declared.shows.Question.TheVariants.{Coloured};
ghost use Rattle.listing.specs.Lists.{list_answer, listed};
ghost use Rattle.game.specs.View.{view_of, TrueState, RoomIn};
ghost use Rattle.checking.specs.Promise.{Checked, Filled};
ghost use Rattle.asking.specs.declared.tests.Test.TheVariants as test;
ghost use Rattle.asking.specs.Tests.{tested_at, superko_at};
ghost use Rattle.asking.specs.Promise.{Tested};
ghost use Rattle.showing.specs.Promise.{Shown};

use asking::superko::is_superko_at;
use asking::tests::{is_eye_at, is_ko_at, is_suicide_at, will_capture};
use checking::check::{check_point, check_point_by};
use game::judge::{judge_state, judge_with};
use game::state::Game;
use legals::list::{legals, legals_by};
use listing::list::Listed;
use queries::goban::TestAnswer;
use showing::shown::{BoardAnswer, board_of, empty_points};

#[unsafe(no_mangle)]
pub extern "C" fn samtrekhu_check_point_by(
    game: Game,
    history: &[u8],
    flags: u8,
    row: u8,
    column: u8,
) -> u8
    ensures { Checked (TrueState game × RoomIn game (length history.now)) (rules.check_answer (view_of game) history.now flags row column) result }
{
    check_point_by(game, history, flags, row, column)
}

#[unsafe(no_mangle)]
pub extern "C" fn samtrekhu_check_point(game: Game, history: &[u8], row: u8, column: u8) -> u8
    ensures { Checked (TrueState game × RoomIn game (length history.now)) (rules.check_answer (view_of game) history.now game.flags row column) result }
{
    check_point(game, history, row, column)
}

#[unsafe(no_mangle)]
pub extern "C" fn samtrekhu_legals_by(
    game: Game,
    history: &[u8],
    flags: u8,
    buffer: &mut [u16],
) -> Listed
    ensures { Filled (TrueState game × RoomIn game (length history.now)) (rules.list_answer (view_of game) flags buffer.old) (rules.legals (view_of game) history.now flags) buffer.old result buffer.new }
{
    legals_by(game, history, flags, buffer)
}

#[unsafe(no_mangle)]
pub extern "C" fn samtrekhu_legals(game: Game, history: &[u8], buffer: &mut [u16]) -> Listed
    ensures { Filled (TrueState game × RoomIn game (length history.now)) (rules.list_answer (view_of game) game.flags buffer.old) (rules.legals (view_of game) history.now game.flags) buffer.old result buffer.new }
{
    legals(game, history, buffer)
}

#[unsafe(no_mangle)]
pub extern "C" fn samtrekhu_is_true_game(game: Game) -> bool
    ensures sound { result ≡ true → TrueState game }
    ensures complete { TrueState game → result ≡ true }
{
    judge_state(&game)
}

#[unsafe(no_mangle)]
pub extern "C" fn samtrekhu_is_true_game_with(game: Game, length: usize) -> bool
    ensures sound { result ≡ true → TrueState game × RoomIn game length }
    ensures complete { TrueState game × RoomIn game length → result ≡ true }
{
    judge_with(&game, length)
}

#[unsafe(no_mangle)]
pub extern "C" fn samtrekhu_empty_points(game: Game, buffer: &mut [u16]) -> Listed
    ensures { Filled (TrueState game) (list_answer game.board.height game.board.width (length buffer.old) (Coloured empty)) (listed game.board.height game.board.width (colours_of game.board) (Coloured empty)) buffer.old result buffer.new }
{
    empty_points(game, buffer)
}

#[unsafe(no_mangle)]
pub extern "C" fn samtrekhu_board_of(game: Game) -> BoardAnswer
    ensures { Shown game result }
{
    board_of(game)
}

#[unsafe(no_mangle)]
pub extern "C" fn samtrekhu_will_capture(game: Game, row: u8, column: u8) -> TestAnswer
    ensures { Tested (TrueState game) (rules.off_board (view_of game) row column) (tested_at (view_of game) row column test.Capture) result }
{
    will_capture(game, row, column)
}

#[unsafe(no_mangle)]
pub extern "C" fn samtrekhu_is_suicide_at(game: Game, row: u8, column: u8) -> TestAnswer
    ensures { Tested (TrueState game) (rules.off_board (view_of game) row column) (tested_at (view_of game) row column test.Suicide) result }
{
    is_suicide_at(game, row, column)
}

#[unsafe(no_mangle)]
pub extern "C" fn samtrekhu_is_ko_at(game: Game, row: u8, column: u8) -> TestAnswer
    ensures { Tested (TrueState game) (rules.off_board (view_of game) row column) (tested_at (view_of game) row column test.Ko) result }
{
    is_ko_at(game, row, column)
}

#[unsafe(no_mangle)]
pub extern "C" fn samtrekhu_is_eye_at(game: Game, row: u8, column: u8) -> TestAnswer
    ensures { Tested (TrueState game) (rules.off_board (view_of game) row column) (tested_at (view_of game) row column test.Eye) result }
{
    is_eye_at(game, row, column)
}

#[unsafe(no_mangle)]
pub extern "C" fn samtrekhu_is_superko_at(
    game: Game,
    history: &[u8],
    row: u8,
    column: u8,
) -> TestAnswer
    ensures { Tested (TrueState game × RoomIn game (length history.now)) (rules.off_board (view_of game) row column) (superko_at (view_of game) history.now row column) result }
{
    is_superko_at(game, history, row, column)
}
