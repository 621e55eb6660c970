// The calls on a game that is changed where it stands, for hosts that hold one: the game is taken out, the call by value answers, and what
// it gives is stored. Handicap, stone and replay go over the border's own calls, so that each is called from one place only and compiled into it: less stack.
ghost use Rattle.std.specs.Prelude.{[], length};
ghost use Rattle.rules.specs.Calls as rules;
ghost use Rattle.placing.specs.Placing.{spots_of};
ghost use Rattle.game.specs.View.{view_of, turn_of, TrueState, RoomIn};
ghost use Rattle.game.specs.Promise.{Called, CalledAlone};
ghost use Rattle.replaying.specs.Replay.{entries_of, Replays};
ghost use Rattle.border.specs.InPlace.{whole};

use crate::calls::{samtrekhu_handicap, samtrekhu_replay, samtrekhu_stone};
use game::calls::{pass, resign, resume};
use game::state::Game;
use replaying::replay::Move;

#[unsafe(no_mangle)]
pub extern "C" fn samtrekhu_pass_in_place(game: &mut Game) -> u8
    ensures { CalledAlone (rules.pass (view_of game.old) []) game.old result game.new }
{
    let answered = pass(*game);
    *game = answered.game;
    answered.answer
}

#[unsafe(no_mangle)]
pub extern "C" fn samtrekhu_resume_in_place(game: &mut Game) -> u8
    ensures { CalledAlone (rules.resume (view_of game.old) []) game.old result game.new }
{
    let answered = resume(*game);
    *game = answered.game;
    answered.answer
}

#[unsafe(no_mangle)]
pub extern "C" fn samtrekhu_resign_in_place(game: &mut Game, player: u8) -> u8
    ensures { CalledAlone (rules.resign (view_of game.old) [] (turn_of player)) game.old result game.new }
{
    let answered = resign(*game, player);
    *game = answered.game;
    answered.answer
}

#[unsafe(no_mangle)]
pub extern "C" fn samtrekhu_handicap_in_place(game: &mut Game, spots: &[u16]) -> u8
    ensures { CalledAlone (rules.handicapped (view_of game.old) [] (spots_of spots.now)) game.old result game.new }
{
    let answered = samtrekhu_handicap(*game, spots);
    *game = answered.game;
    answered.answer
}

#[unsafe(no_mangle)]
pub extern "C" fn samtrekhu_stone_in_place(
    game: &mut Game,
    history: &mut [u8],
    row: u8,
    column: u8,
) -> u8
    ensures { Called (TrueState game.old × RoomIn game.old (length history.old)) (rules.stone (view_of game.old) history.old row column) game.old history.old result game.new history.new }
{
    let answered = samtrekhu_stone(*game, history, row, column);
    *game = answered.game;
    answered.answer
}

// What a replay answers beside the game.
#[repr(C)]
#[derive(Clone, Copy)]
pub struct ReplayedInPlace {
    // how many were accepted
    pub entries: usize,
    // the refusal's number, 0 if none
    pub answer: u8,
}

#[unsafe(no_mangle)]
pub extern "C" fn samtrekhu_replay_in_place(
    game: &mut Game,
    history: &mut [u8],
    moves: &[Move],
) -> ReplayedInPlace
    ensures { Replays (TrueState game.old × RoomIn game.old (length history.old)) (rules.replay (view_of game.old) history.old (entries_of moves.now)) game.old history.old (whole result game.new) history.new }
{
    let replayed = samtrekhu_replay(*game, history, moves);
    *game = replayed.game;
    ReplayedInPlace {
        entries: replayed.entries,
        answer: replayed.answer,
    }
}
