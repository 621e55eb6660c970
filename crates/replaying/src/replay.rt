// Replay: a lent row of moves in order, up to the first refusal.
ghost use Rattle.std.specs.Prelude.{◌≡◌, length};
ghost use Rattle.rules.specs.Calls as rules;
ghost use Rattle.game.specs.View.{view_of, TrueState, RoomIn};
ghost use Rattle.replaying.specs.Replay.{entries_of, Replays};

use crate::entry::{STONE, enter};
use board::goban::Board;
use game::clock::{clock_of, game_of};
use game::judge::judge_with;
use game::state::Game;
use laying::lay::{Laid, lay};
use looking::look::{keep, look_at};
use playing::stone::{all_tested, moved};
use points::answers::{ACCEPTED, DAMAGED};
use points::sizes::MAX_AREA;
use points::stones::EMPTY;

// A row and a column count only where the kind is a stone.
#[repr(C)]
#[derive(Clone, Copy)]
pub struct Move {
    pub kind: u8,
    pub row: u8,
    pub column: u8,
}

#[repr(C)]
#[derive(Clone, Copy)]
pub struct Replayed {
    // how many were accepted
    pub entries: usize,
    // the refusal's number, 0 if none
    pub answer: u8,
    // the state after what was accepted
    pub game: Game,
}

// The board before any stone is laid on it.
fn unlaid(board: Board) -> Laid
    ensures { result.board ≡ board }
{
    Laid {
        board,
        taken: 0,
        lost: 0,
        ko: None,
    }
}

// The state is judged once: each accepted entry leaves a true one. The loop holds the board and the numbers apart and gives neither to a function that gives the
// game back: `lay` reads the board where it put the last one, and one exit makes a game of both. A stone is tested by what is seen of the board, and
// the tests take the board itself only where the records decide. The colours are read again only after a stone that removed some.
pub fn replay(game: Game, history: &mut [u8], moves: &[Move]) -> Replayed
    ensures { Replays (TrueState game × RoomIn game (length history.old)) (rules.replay (view_of game) history.old (entries_of moves.now)) game history.old result history.new }
{
    let mut laid = unlaid(game.board);
    let mut clock = clock_of(&game);
    let mut answer = DAMAGED;
    let mut accepted = 0;
    if judge_with(&game, history.len()) {
        answer = ACCEPTED;
        let mut colours = [EMPTY; MAX_AREA];
        let mut read = 0;
        for entry in moves {
            if entry.kind == STONE {
                let sight = look_at(&laid.board, &mut colours, read, entry.row, entry.column);
                let granted = all_tested(
                    &laid.board,
                    sight,
                    &colours,
                    clock,
                    history,
                    entry.row,
                    entry.column,
                );
                match granted {
                    Err(refusal) => {
                        answer = refusal.number();
                        break;
                    }
                    Ok(turn) => {
                        laid = lay(laid.board, turn.point, turn.mover, clock.flags);
                        read = keep(&mut colours, turn.point, turn.mover, laid.taken, laid.lost);
                        clock = moved(clock, turn.records, laid.taken, laid.lost, laid.ko);
                    }
                }
            } else {
                match enter(clock, entry.kind) {
                    Err(refusal) => {
                        answer = refusal.number();
                        break;
                    }
                    Ok(next) => {
                        clock = next;
                    }
                }
            }
            accepted += 1;
        }
    }
    Replayed {
        entries: accepted,
        answer,
        game: game_of(laid.board, clock),
    }
}
