// The superko test by itself, the crate's `check_super_ko`. Where a stone stands it answers no.
ghost use Rattle.std.specs.Prelude.{length};
ghost use Rattle.rules.specs.Calls.{off_board};
ghost use Rattle.game.specs.View.{view_of, TrueState, RoomIn};
ghost use Rattle.asking.specs.Tests.{superko_at};
ghost use Rattle.asking.specs.Promise.{Tested};

use checking::point::is_ko_point;
use checking::spot::{Spot, spot_of};
use checking::superko::{Leave, repeats, superko_told};
use game::calls::player_of;
use game::judge::judge_with;
use game::state::Game;
use looking::look::look_at;
use points::answers::{ACCEPTED, DAMAGED, OFF_BOARD};
use points::sizes::MAX_AREA;
use points::stones::EMPTY;
use queries::goban::TestAnswer;

// At a row and a column, of any state.
pub fn is_superko_at(game: Game, history: &[u8], row: u8, column: u8) -> TestAnswer
    ensures { Tested (TrueState game × RoomIn game (length history.now)) (off_board (view_of game) row column) (superko_at (view_of game) history.now row column) result }
{
    if !judge_with(&game, history.len()) {
        return TestAnswer {
            answer: DAMAGED,
            holds: false,
        };
    }
    let mut colours = [EMPTY; MAX_AREA];
    let sight = look_at(&game.board, &mut colours, 0, row, column);
    match spot_of(&colours, sight.height, sight.width, row, column) {
        Spot::Off => TestAnswer {
            answer: OFF_BOARD,
            holds: false,
        },
        Spot::Stone => TestAnswer {
            answer: ACCEPTED,
            holds: false,
        },
        Spot::Empty(point) => {
            let told = superko_told(
                sight.near,
                player_of(game.turn),
                is_ko_point(game.ko, point),
                game.records,
            );
            let holds = match told {
                Err(_) => true,
                Ok(leave) => match leave {
                    Leave::Free => false,
                    Leave::IfNew => repeats(&game, history, point),
                },
            };
            TestAnswer {
                answer: ACCEPTED,
                holds,
            }
        }
    }
}
