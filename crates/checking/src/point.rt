// What a stone of the player to move is answered at a point: on the board, empty, and the four tests by the flags.
ghost use Rattle.std.specs.Prelude.{◌≡◌, length};
ghost use Rattle.rules.specs.Records.{recorded};
ghost use Rattle.rules.specs.Answers.{number, refuse, SuperKo};
ghost use Rattle.rules.specs.Calls.{resulting, point_answer};
ghost use Rattle.points.specs.Reason.{answer_of};
ghost use Rattle.board.specs.declared.goban.Board.{Board};
ghost use Rattle.board.specs.True.{TrueBoard};
ghost use Rattle.looking.specs.Seen.{Sees};
ghost use Rattle.game.specs.Clock.{game_of};
ghost use Rattle.game.specs.View.{view_of, TrueState, RoomIn};
ghost use Rattle.checking.specs.Told.{at_ko, told_as, told_spot, told_near};
ghost use Rattle.checking.specs.Asking.{Repeating, ToldAt};

use crate::refusal::told;
use crate::spot::{Spot, spot_of};
use crate::superko::{Leave, repeats};
use chains::group::index;
use game::calls::player_of;
use game::clock::{Clock, clock_of};
use game::state::{Game, NO_POINT};
use legality::near::Near;
use looking::look::{Sight, look_at};
use points::answers::Refusal;
use points::sizes::MAX_AREA;
use points::stones::EMPTY;

pub fn is_ko_point(ko: u16, point: usize) -> bool
    ensures { result ≡ at_ko ko point }
{
    ko != NO_POINT && point == index(ko)
}

// What is told of a spot by what stands near it, before a stone is laid. The colours are read only where the eye test is asked.
pub fn told_of(
    spot: Spot,
    near: Near,
    colours: &[u8; MAX_AREA],
    height: u8,
    width: u8,
    colour: u8,
    ko: u16,
    records: usize,
    flags: u8,
) -> Result<Leave, Refusal>
    ensures { told_as result ≡ told_spot spot (told_near flags near colours.now height width colour ko records) }
{
    match spot {
        Spot::Off => Err(Refusal::OffBoard),
        Spot::Stone => Err(Refusal::PointNotEmpty),
        Spot::Empty(point) => told(
            near,
            colours,
            height,
            width,
            point,
            colour,
            is_ko_point(ko, point),
            records,
            flags,
        ),
    }
}

// The same of a row and a column, by what is seen of a board there: for every true board that looks so.
pub fn told_by(
    sight: Sight,
    colours: &[u8; MAX_AREA],
    clock: Clock,
    flags: u8,
    row: u8,
    column: u8,
) -> Result<Leave, Refusal>
    ensures { (b : Board) → TrueBoard b → Sees b row column colours.now sight → ToldAt (game_of b clock) flags row column (told_as result) }
{
    told_of(
        spot_of(colours, sight.height, sight.width, row, column),
        sight.near,
        colours,
        sight.height,
        sight.width,
        player_of(clock.turn),
        clock.ko,
        clock.records,
        flags,
    )
}

// The answer of a true state whose history was judged too.
pub fn point_answer(
    game: &Game,
    history: &[u8],
    flags: u8,
    row: u8,
    column: u8,
) -> Result<(), Refusal>
    requires { TrueState game.now × RoomIn game.now (length history.now) }
    ensures { number (answer_of result) ≡ number (point_answer (view_of game.now) history.now flags row column) }
{
    let mut colours = [EMPTY; MAX_AREA];
    let sight = look_at(&game.board, &mut colours, 0, row, column);
    let leave = told_by(sight, &colours, clock_of(game), flags, row, column)?;
    match leave {
        Leave::Free => Ok(()),
        Leave::IfNew => {
            if repeats(game, history, sight.point) {
                return Err(Refusal::SuperKo);
            }
            Ok(())
        }
    }
}
