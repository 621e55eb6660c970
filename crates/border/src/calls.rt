// The calls on a game by value.
ghost use Rattle.std.specs.Prelude.{[], length};
ghost use Rattle.rules.specs.Calls as rules;
ghost use Rattle.placing.specs.Placing.{spots_of};
ghost use Rattle.game.specs.View.{view_of, turn_of, TrueState, RoomIn};
ghost use Rattle.game.specs.Promise.{Made, Called, CalledAlone};
ghost use Rattle.replaying.specs.Replay.{entries_of, Replays};

use game::calls::{Answered, new_game, pass, resign, resume};
use game::state::Game;
use playing::handicap::handicap;
use playing::stone::stone;
use replaying::replay::{Move, Replayed, replay};

#[unsafe(no_mangle)]
pub extern "C" fn samtrekhu_new_game(height: u8, width: u8, flags: u8) -> Answered
    ensures { Made height width flags result.answer result.game }
{
    new_game(height, width, flags)
}

#[unsafe(no_mangle)]
pub extern "C" fn samtrekhu_handicap(game: Game, spots: &[u16]) -> Answered
    ensures { CalledAlone (rules.handicapped (view_of game) [] (spots_of spots.now)) game result.answer result.game }
{
    handicap(game, spots)
}

#[unsafe(no_mangle)]
pub extern "C" fn samtrekhu_stone(game: Game, history: &mut [u8], row: u8, column: u8) -> Answered
    ensures { Called (TrueState game × RoomIn game (length history.old)) (rules.stone (view_of game) history.old row column) game history.old result.answer result.game history.new }
{
    stone(game, history, row, column)
}

#[unsafe(no_mangle)]
pub extern "C" fn samtrekhu_pass(game: Game) -> Answered
    ensures { CalledAlone (rules.pass (view_of game) []) game result.answer result.game }
{
    pass(game)
}

#[unsafe(no_mangle)]
pub extern "C" fn samtrekhu_resign(game: Game, player: u8) -> Answered
    ensures { CalledAlone (rules.resign (view_of game) [] (turn_of player)) game result.answer result.game }
{
    resign(game, player)
}

#[unsafe(no_mangle)]
pub extern "C" fn samtrekhu_resume(game: Game) -> Answered
    ensures { CalledAlone (rules.resume (view_of game) []) game result.answer result.game }
{
    resume(game)
}

#[unsafe(no_mangle)]
pub extern "C" fn samtrekhu_replay(game: Game, history: &mut [u8], moves: &[Move]) -> Replayed
    ensures { Replays (TrueState game × RoomIn game (length history.old)) (rules.replay (view_of game) history.old (entries_of moves.now)) game history.old result history.new }
{
    replay(game, history, moves)
}
