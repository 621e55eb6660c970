// The judge of a state, of whatever bytes: the board's judge once, which counts the stones too, then the numbers. Its sums are in 64 bits,
// so that none wraps. The game is lent: by value it would be copied.
ghost use Rattle.std.specs.Prelude.{true, ◌≡◌};
ghost use Rattle.rules.specs.Points as rules;
ghost use Rattle.board.specs.declared.goban.Board.{Board};
ghost use Rattle.board.specs.Verdict.{Judged};
ghost use Rattle.game.specs.Clock.{game_of};
ghost use Rattle.game.specs.View.{TrueState, RoomFor, RoomIn};
ghost use Rattle.game.specs.Judge.{Decides, InRange, Summed, Untouched};

use crate::clock::{Clock, clock_of};
use crate::state::{Game, ko_point, outcome_of};
use board::judge::{Stones, judged};
use chains::group::index;
use points::coord::area;
use points::sizes::{MAX_AREA, MAX_FLAGS, RECORD_BYTES};

// Flags, passes and handicap in range, and the ko point none or below the area.
fn in_range(height: u8, width: u8, clock: &Clock) -> bool
    ensures { let k = clock.now in Decides result (InRange (rules.area height width) k.flags k.passes k.ko k.handicap) }
{
    if MAX_FLAGS < clock.flags {
        return false;
    }
    if 2 < clock.passes {
        return false;
    }
    if MAX_AREA < index(clock.handicap) {
        return false;
    }
    match ko_point(clock.ko) {
        None => true,
        Some(point) => point < area(height, width),
    }
}

fn summed(clock: &Clock, on: Stones) -> bool
    ensures { let k = clock.now in Decides result (Summed on k.held k.put k.handicap k.accepted) }
{
    let black = u64::from(clock.put.black);
    let white = u64::from(clock.put.white);
    black == u64::from(on.black) + u64::from(clock.held.black)
        && white == u64::from(on.white) + u64::from(clock.held.white)
        && black + white == u64::from(clock.handicap) + u64::from(clock.accepted)
}

fn untouched(clock: &Clock) -> bool
    ensures { let k = clock.now in Decides result (Untouched k.put k.records k.passes k.outcome) }
{
    clock.put.black == 0
        && clock.put.white == 0
        && clock.records == 0
        && clock.passes == 0
        && outcome_of(clock.outcome).is_none()
}

// The numbers fit a board of this size of which the board's judge found this. The type of `accepted` keeps it at most 65,535; that an
// untouched game's board is empty follows from the sums.
pub fn numbers_fit(found: Option<Stones>, height: u8, width: u8, clock: Clock) -> bool
    ensures { (b : Board) → b.height ≡ height → b.width ≡ width → Judged b found → Decides result (TrueState (game_of b clock)) }
{
    match found {
        None => false,
        Some(on) => {
            if !in_range(height, width, &clock) {
                return false;
            }
            if !summed(&clock, on) {
                return false;
            }
            clock.begun != 0 || untouched(&clock)
        }
    }
}

// Both judges in one.
pub fn judge_state(game: &Game) -> bool
    ensures sound { result ≡ true → TrueState game.now }
    ensures complete { TrueState game.now → result ≡ true }
{
    let found = judged(&game.board);
    numbers_fit(found, game.board.height, game.board.width, clock_of(game))
}

// A history of this many bytes has room for so many records.
fn has_room(records: usize, length: usize) -> bool
    ensures { Decides result (RoomFor records length) }
{
    records <= length / RECORD_BYTES
}

// The numbers and the room, for a call that is lent a history of this many bytes.
pub fn numbers_fit_with(
    found: Option<Stones>,
    height: u8,
    width: u8,
    clock: Clock,
    length: usize,
) -> bool
    ensures { (b : Board) → b.height ≡ height → b.width ≡ width → Judged b found → Decides result (TrueState (game_of b clock) × RoomIn (game_of b clock) length) }
{
    has_room(clock.records, length) && numbers_fit(found, height, width, clock)
}

// The same for a call that is lent a history of this many bytes.
pub fn judge_with(game: &Game, length: usize) -> bool
    ensures sound { result ≡ true → TrueState game.now × RoomIn game.now length }
    ensures complete { TrueState game.now × RoomIn game.now length → result ≡ true }
{
    has_room(game.records, length) && judge_state(game)
}
