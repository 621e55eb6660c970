// A game's facts in numbers alone, as C can hold them.
ghost use Rattle.std.specs.Prelude.{◌≡◌};
ghost use Rattle.reporting.specs.Facts.{outcome_number, Asked};

use game::asks::facts_of as asked;
use game::state::{Game, Tally};
use playing::count::ko_number;
use points::stones::EMPTY;

#[repr(C)]
#[derive(Clone, Copy)]
pub struct Facts {
    pub answer: u8,
    pub height: u8,
    pub width: u8,
    pub flags: u8,
    pub turn: u8,
    pub passes: u8,
    // the player that a resignation named, or EMPTY
    pub outcome: u8,
    pub over: bool,
    // the ko point's index, or NO_POINT
    pub ko: u16,
    pub handicap: u16,
    // stones accepted, handicap not counted
    pub accepted: u16,
    // stones of each colour that are held
    pub prisoners: Tally,
    // records that the history holds
    pub records: usize,
}

fn outcome_number(outcome: Option<u8>) -> u8
    ensures { result ≡ outcome_number outcome }
{
    outcome.unwrap_or(EMPTY)
}

pub fn facts_of(game: Game) -> Facts
    ensures { Asked game result }
{
    let facts = asked(game);
    Facts {
        answer: facts.answer,
        height: facts.height,
        width: facts.width,
        flags: facts.flags,
        turn: facts.turn,
        passes: facts.passes,
        outcome: outcome_number(facts.outcome),
        over: facts.over,
        ko: ko_number(facts.ko),
        handicap: facts.handicap,
        accepted: facts.accepted,
        prisoners: facts.prisoners,
        records: facts.records,
    }
}
