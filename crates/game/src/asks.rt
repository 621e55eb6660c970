// What is asked of a game, by the names of the crate's game.rs: size, turn, prisoners, outcome, is_over; and its fields passes,
// ko_point, handicap, rule.flag_illegal (flags), history.len() (records). Scores are left out: two passes alone give no outcome.
ghost use Rattle.std.specs.Prelude.{◌≡◌};
ghost use Rattle.game.specs.Asks.{is_over, Asked};

use crate::calls::player_of;
use crate::judge::judge_state;
use crate::state::{Game, Tally, ko_point, outcome_of};
use points::answers::{ACCEPTED, DAMAGED};

// The answer's number stays a field beside the facts: what is proved of the facts of alike games is said of both together.
#[derive(Clone, Copy)]
pub struct Facts {
    pub answer: u8,
    pub height: u8,
    pub width: u8,
    pub flags: u8,
    pub turn: u8,
    pub passes: u8,
    // stones of each colour that are held
    pub prisoners: Tally,
    pub ko: Option<usize>,
    // the player that a resignation named
    pub outcome: Option<u8>,
    pub over: bool,
    pub handicap: u16,
    // stones accepted, handicap not counted
    pub accepted: u16,
    // records that the history holds
    pub records: usize,
}

// The facts of no game.
const NO_FACTS: Facts = Facts {
    answer: DAMAGED,
    height: 0,
    width: 0,
    flags: 0,
    turn: 0,
    passes: 0,
    prisoners: Tally { black: 0, white: 0 },
    ko: None,
    outcome: None,
    over: false,
    handicap: 0,
    accepted: 0,
    records: 0,
};

// An outcome stands, or two passes.
#[tactic(auto, unfolding(crate::specs::Asks::is_over))]
fn is_over(outcome: Option<u8>, passes: u8) -> bool
    ensures { result ≡ is_over outcome passes }
{
    match outcome {
        Some(_) => true,
        None => 2 <= passes,
    }
}

pub fn facts_of(game: Game) -> Facts
    ensures { Asked game result }
{
    if !judge_state(&game) {
        return NO_FACTS;
    }
    let outcome = outcome_of(game.outcome);
    Facts {
        answer: ACCEPTED,
        height: game.board.height,
        width: game.board.width,
        flags: game.flags,
        turn: player_of(game.turn),
        passes: game.passes,
        prisoners: game.held,
        ko: ko_point(game.ko),
        outcome,
        over: is_over(outcome, game.passes),
        handicap: game.handicap,
        accepted: game.accepted,
        records: game.records,
    }
}
