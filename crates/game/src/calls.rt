// The calls that need no history: a new game, pass, resign, resume. Each asks nothing of the state that it gets.
ghost use Rattle.std.specs.Prelude.{◌≡◌, []};
ghost use Rattle.rules.specs.Calls as rules;
ghost use Rattle.points.specs.Reason.{answer_of};
ghost use Rattle.game.specs.Clock.{game_of};
ghost use Rattle.game.specs.View.{turn_of, view_of, fresh_state};
ghost use Rattle.game.specs.Promise.{Made, CalledAlone, Ticks};
ghost use Rattle.game.specs.Ticked.{number_of, after, Vouched};

use crate::clock::{Clock, clock_of, game_of};
use crate::judge::judge_state;
use crate::state::{Game, NO_POINT, Tally};
use board::goban::empty_board;
use points::answers::{ACCEPTED, Refusal, number};
use points::sizes::{MAX_FLAGS, is_side};
use points::stones::{BLACK, EMPTY, WHITE, other};

#[repr(C)]
#[derive(Clone, Copy)]
pub struct Answered {
    pub answer: u8,
    pub game: Game,
}

// The player whom a byte names.
pub fn player_of(byte: u8) -> u8
    ensures { result ≡ turn_of byte }
{
    if byte == WHITE { WHITE } else { BLACK }
}

// A game in which nothing has happened yet.
fn fresh(height: u8, width: u8, flags: u8) -> Game
    ensures { result ≡ fresh_state height width flags }
{
    Game {
        board: empty_board(height, width),
        flags,
        turn: BLACK,
        passes: 0,
        outcome: EMPTY,
        begun: 0,
        ko: NO_POINT,
        handicap: 0,
        accepted: 0,
        held: Tally { black: 0, white: 0 },
        put: Tally { black: 0, white: 0 },
        records: 0,
    }
}

// Whether there can be such a game: its sides, then its flags.
fn can_begin(height: u8, width: u8, flags: u8) -> Result<(), Refusal>
    ensures { answer_of result ≡ rules.new_answer height width flags }
{
    if !is_side(height) {
        return Err(Refusal::BadSize);
    }
    if !is_side(width) {
        return Err(Refusal::BadSize);
    }
    if MAX_FLAGS < flags {
        return Err(Refusal::BadFlags);
    }
    Ok(())
}

// A refused new game is the fresh one of 1 × 1 with flags 0. One fresh game is made, whichever it is: two would have a place each.
pub fn new_game(height: u8, width: u8, flags: u8) -> Answered
    ensures { Made height width flags result.answer result.game }
{
    let asked = can_begin(height, width, flags);
    let (height, width, flags) = match asked {
        Ok(()) => (height, width, flags),
        Err(_) => (1, 1, 0),
    };
    Answered {
        answer: number(asked),
        game: fresh(height, width, flags),
    }
}

// The three calls on the numbers alone: their promise is for every board with which these make a true state, so that a row of calls judges
// once and copies no board. More than two passes make none; the test for two takes them too, so that the sum is a byte.
pub fn passed(clock: Clock) -> Result<Clock, Refusal>
    ensures { Ticks (λ g. rules.pass (view_of g) []) clock (number_of result) (after clock result) }
{
    if 2 <= clock.passes {
        return Err(Refusal::GamePaused);
    }
    let mover = player_of(clock.turn);
    let next = other(mover);
    // after a pass every point may be taken again
    let ko = NO_POINT;
    Ok(Clock {
        turn: next,
        passes: clock.passes + 1,
        ko,
        begun: 1,
        ..clock
    })
}

// The outcome names the player that the byte names.
pub fn resigned(clock: Clock, player: u8) -> Result<Clock, Refusal>
    ensures { Ticks (λ g. rules.resign (view_of g) [] (turn_of player)) clock (number_of result) (after clock result) }
{
    if 2 <= clock.passes {
        return Err(Refusal::GamePaused);
    }
    Ok(Clock {
        outcome: player_of(player),
        begun: 1,
        ..clock
    })
}

pub fn resumed(clock: Clock) -> Result<Clock, Refusal>
    ensures { Ticks (λ g. rules.resume (view_of g) []) clock (number_of result) (after clock result) }
{
    Ok(Clock { passes: 0, ..clock })
}

// The numbers of a true state.
fn vouched(game: &Game) -> Result<Clock, Refusal>
    ensures { Vouched game.now result }
{
    if !judge_state(game) {
        return Err(Refusal::Damaged);
    }
    Ok(clock_of(game))
}

// The game with what a call made of its numbers.
#[tactic(auto, unfolding(rules::specs::Answers::number))]
fn put_back(game: &Game, ticked: Result<Clock, Refusal>) -> Answered
    ensures told { result.answer ≡ number_of ticked }
    ensures given { (clock : Clock) → ticked ≡ Ok clock → result.game ≡ game_of game.now.board clock }
    ensures kept { (refusal : Refusal) → ticked ≡ Err refusal → result.game ≡ game.now }
{
    match ticked {
        Ok(clock) => Answered {
            answer: ACCEPTED,
            game: game_of(game.board, clock),
        },
        Err(refusal) => Answered {
            answer: refusal.number(),
            game: *game,
        },
    }
}

// The same for any state at all.
pub fn pass(game: Game) -> Answered
    ensures { CalledAlone (rules.pass (view_of game) []) game result.answer result.game }
{
    put_back(&game, vouched(&game).and_then(passed))
}

pub fn resign(game: Game, player: u8) -> Answered
    ensures { CalledAlone (rules.resign (view_of game) [] (turn_of player)) game result.answer result.game }
{
    put_back(
        &game,
        vouched(&game).and_then(|clock| resigned(clock, player)),
    )
}

pub fn resume(game: Game) -> Answered
    ensures { CalledAlone (rules.resume (view_of game) []) game result.answer result.game }
{
    put_back(&game, vouched(&game).and_then(resumed))
}
