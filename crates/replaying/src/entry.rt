// One entry of a replay that puts no stone, on a game's numbers alone: its kind names the call.
ghost use Rattle.std.specs.Prelude.{◌≢◌};
ghost use Rattle.game.specs.Ticked.{number_of, after};
ghost use Rattle.replaying.specs.Replay.{EntersAlone};

use game::calls::{passed, resigned, resumed};
use game::clock::Clock;
use points::answers::Refusal;
use points::stones::{BLACK, WHITE};

// The kinds, by the numbers that C gives: an entry's kind stays a byte, since its one reader is the match below.
pub const STONE: u8 = 0;

const PASS: u8 = 1;

const BLACK_RESIGNS: u8 = 2;

const WHITE_RESIGNS: u8 = 3;

const RESUME: u8 = 4;

// Any other kind is refused before all else; a stone needs board and history.
pub fn enter(clock: Clock, kind: u8) -> Result<Clock, Refusal>
    requires { kind ≢ STONE }
    ensures { EntersAlone clock kind (number_of result) (after clock result) }
{
    match kind {
        PASS => passed(clock),
        BLACK_RESIGNS => resigned(clock, BLACK),
        WHITE_RESIGNS => resigned(clock, WHITE),
        RESUME => resumed(clock),
        _ => Err(Refusal::BadKind),
    }
}
