// A game in two parts, its board and its numbers: a row of calls that holds them apart copies no board where only the numbers change.
ghost use Rattle.std.specs.Prelude.{◌≡◌};
ghost use Rattle.game.specs.Clock.{clock_of, game_of};

use crate::state::{Game, Tally};
use board::goban::Board;

// All of a game but its board.
#[derive(Clone, Copy)]
pub struct Clock {
    pub flags: u8,
    pub turn: u8,
    pub passes: u8,
    pub outcome: u8,
    pub begun: u8,
    pub ko: u16,
    pub handicap: u16,
    pub accepted: u16,
    pub held: Tally,
    pub put: Tally,
    pub records: usize,
}

pub fn clock_of(game: &Game) -> Clock
    ensures { result ≡ clock_of game.now }
{
    Clock {
        flags: game.flags,
        turn: game.turn,
        passes: game.passes,
        outcome: game.outcome,
        begun: game.begun,
        ko: game.ko,
        handicap: game.handicap,
        accepted: game.accepted,
        held: game.held,
        put: game.put,
        records: game.records,
    }
}

pub fn game_of(board: Board, clock: Clock) -> Game
    ensures { result ≡ game_of board clock }
{
    Game {
        board,
        flags: clock.flags,
        turn: clock.turn,
        passes: clock.passes,
        outcome: clock.outcome,
        begun: clock.begun,
        ko: clock.ko,
        handicap: clock.handicap,
        accepted: clock.accepted,
        held: clock.held,
        put: clock.put,
        records: clock.records,
    }
}
