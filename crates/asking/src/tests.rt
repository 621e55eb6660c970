// What is asked of a point for the player to move: the tests of the crate's game.rs that need no history, each by itself. No stone is
// laid on another, so where one stands each answers no.
ghost use Rattle.std.specs.Prelude.{◌≡◌};
ghost use Rattle.rules.specs.Calls.{off_board};
ghost use Rattle.game.specs.View.{view_of, TrueState};
ghost use Rattle.asking.specs.Tests.{tested_near, tested_at};
ghost use Rattle.asking.specs.Promise.{Tested};

use checking::point::is_ko_point;
use checking::spot::{Spot, spot_of};
use eyes::eye::is_eye;
use game::calls::player_of;
use game::judge::judge_state;
use game::state::Game;
use legality::near::{Near, is_ko, is_suicide, will_capture as captures};
use looking::look::look_at;
use points::answers::{ACCEPTED, DAMAGED, OFF_BOARD};
use points::sizes::MAX_AREA;
use points::stones::EMPTY;
use queries::goban::TestAnswer;

// The tests that need no history.
#[derive(Clone, Copy)]
pub enum Test {
    Capture,
    Suicide,
    Ko,
    Eye,
}

// The test at an empty point, by what is seen of a board. The colours are read only where the eye test is asked.
fn holds(
    near: Near,
    colours: &[u8; MAX_AREA],
    height: u8,
    width: u8,
    point: usize,
    colour: u8,
    ko: u16,
    test: Test,
) -> bool
    ensures { result ≡ tested_near near colours.now height width colour ko point test }
{
    match test {
        Test::Capture => captures(near, colour),
        Test::Suicide => is_suicide(near, colour),
        Test::Ko => is_ko(near, is_ko_point(ko, point)),
        Test::Eye => is_eye(colours, height, width, point, colour),
    }
}

// The test at a row and a column, of any state.
fn asked(game: &Game, row: u8, column: u8, test: Test) -> TestAnswer
    ensures { Tested (TrueState game.now) (off_board (view_of game.now) row column) (tested_at (view_of game.now) row column test) result }
{
    if !judge_state(game) {
        return TestAnswer {
            answer: DAMAGED,
            holds: false,
        };
    }
    let mut colours = [EMPTY; MAX_AREA];
    let sight = look_at(&game.board, &mut colours, 0, row, column);
    match spot_of(&colours, sight.height, sight.width, row, column) {
        Spot::Off => TestAnswer {
            answer: OFF_BOARD,
            holds: false,
        },
        Spot::Stone => TestAnswer {
            answer: ACCEPTED,
            holds: false,
        },
        Spot::Empty(point) => TestAnswer {
            answer: ACCEPTED,
            holds: holds(
                sight.near,
                &colours,
                sight.height,
                sight.width,
                point,
                player_of(game.turn),
                game.ko,
                test,
            ),
        },
    }
}

// A stone there takes the last liberty of an enemy chain.
pub fn will_capture(game: Game, row: u8, column: u8) -> TestAnswer
    ensures { Tested (TrueState game) (off_board (view_of game) row column) (tested_at (view_of game) row column Test.Capture) result }
{
    asked(&game, row, column, Test::Capture)
}

// The crate's `check_suicide`.
pub fn is_suicide_at(game: Game, row: u8, column: u8) -> TestAnswer
    ensures { Tested (TrueState game) (off_board (view_of game) row column) (tested_at (view_of game) row column Test.Suicide) result }
{
    asked(&game, row, column, Test::Suicide)
}

// The crate's `check_ko`.
pub fn is_ko_at(game: Game, row: u8, column: u8) -> TestAnswer
    ensures { Tested (TrueState game) (off_board (view_of game) row column) (tested_at (view_of game) row column Test.Ko) result }
{
    asked(&game, row, column, Test::Ko)
}

// The crate's `check_eye`.
pub fn is_eye_at(game: Game, row: u8, column: u8) -> TestAnswer
    ensures { Tested (TrueState game) (off_board (view_of game) row column) (tested_at (view_of game) row column Test.Eye) result }
{
    asked(&game, row, column, Test::Eye)
}
