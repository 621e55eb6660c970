// A game's facts in numbers alone.
ghost use Rattle.reporting.specs.Facts.{Asked};

use game::state::Game;
use reporting::facts::{Facts, facts_of};

#[unsafe(no_mangle)]
pub extern "C" fn samtrekhu_facts_of(game: Game) -> Facts
    ensures { Asked game result }
{
    facts_of(game)
}
