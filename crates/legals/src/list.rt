// The legal points of the player to move, in a lent buffer, by the names of the crate's game.rs. The state is judged once, and the
// board is read once into numbers that are lent to the tests: it is copied only where a capture might bring a recorded board back.
ghost use Rattle.std.specs.Prelude.{◌≡◌, ◌<◌, eqb, length, true};
ghost use Rattle.rules.specs.Records.{recorded};
ghost use Rattle.rules.specs.Calls as rules;
ghost use Rattle.rules.specs.Calls.{resulting};
ghost use Rattle.points.specs.Reason.{answer_of};
ghost use Rattle.viewing.specs.Front.{Front};
ghost use Rattle.game.specs.View.{view_of, TrueState, RoomIn};
ghost use Rattle.checking.specs.Told.{told_as, settled, undecided};
ghost use Rattle.checking.specs.Asking.{Repeating};
ghost use Rattle.checking.specs.Promise.{Filled};
ghost use Rattle.legals.specs.Legals.{told_at, refused, Filling};

use checking::point::is_ko_point;
use checking::refusal::told;
use checking::superko::{Leave, repeats};
use game::calls::player_of;
use game::judge::judge_with;
use game::state::Game;
use listing::list::{Listed, length_refusal};
use looking::look::{Seen, near, seen_of};
use points::answers::{ACCEPTED, DAMAGED, Refusal};
use points::coord::area;
use points::sizes::MAX_FLAGS;
use points::stones::{EMPTY, colour_at};

// What is told of a point of the board before any stone is laid.
fn told_at(
    seen: &Seen,
    height: u8,
    width: u8,
    point: usize,
    colour: u8,
    ko: u16,
    records: usize,
    flags: u8,
) -> Result<Leave, Refusal>
    ensures { told_as result ≡ told_at height width seen.now.colours seen.now.liberties seen.now.stones point colour ko records flags }
{
    if colour_at(&seen.colours, point) != EMPTY {
        return Err(Refusal::PointNotEmpty);
    }
    told(
        near(seen, height, width, point),
        &seen.colours,
        height,
        width,
        point,
        colour,
        is_ko_point(ko, point),
        records,
        flags,
    )
}

// A stone at the point is accepted, once the records are looked through where they decide.
fn is_legal(game: &Game, history: &[u8], told: Result<Leave, Refusal>, point: usize) -> bool
    requires { undecided (told_as told) ≡ true → Repeating game.now (length history.now) point }
    ensures { result ≡ eqb (settled (told_as told) (recorded history.now game.now.records (resulting (view_of game.now) point))) 0 }
{
    match told {
        Err(_) => false,
        Ok(leave) => match leave {
            Leave::Free => true,
            Leave::IfNew => !repeats(game, history, point),
        },
    }
}

// Writes the legal points from the front of the buffer on, and answers how many there are.
fn fill(game: &Game, history: &[u8], flags: u8, buffer: &mut [u16]) -> usize
    requires { Filling game.now (length history.now) (length buffer.old) }
    ensures { Front (rules.legals (view_of game.now) history.now flags) buffer.old result buffer.new }
{
    let height = game.board.height;
    let width = game.board.width;
    let colour = player_of(game.turn);
    let seen = seen_of(game.board);
    let mut count = 0;
    for point in 0..area(height, width) {
        let told = told_at(
            &seen,
            height,
            width,
            point,
            colour,
            game.ko,
            game.records,
            flags,
        );
        if is_legal(game, history, told, point) {
            buffer[count] = point as u16;
            count += 1;
        }
    }
    count
}

// The flags, then the room.
fn refusal(height: u8, width: u8, flags: u8, length: usize) -> Result<(), Refusal>
    ensures { answer_of result ≡ refused height width flags length }
{
    if MAX_FLAGS < flags {
        return Err(Refusal::BadFlags);
    }
    length_refusal(height, width, length)
}

// By given flags.
pub fn legals_by(game: Game, history: &[u8], flags: u8, buffer: &mut [u16]) -> Listed
    ensures { Filled (TrueState game × RoomIn game (length history.now)) (rules.list_answer (view_of game) flags buffer.old) (rules.legals (view_of game) history.now flags) buffer.old result buffer.new }
{
    if !judge_with(&game, history.len()) {
        return Listed {
            number: DAMAGED,
            count: 0,
        };
    }
    match refusal(game.board.height, game.board.width, flags, buffer.len()) {
        Err(reason) => Listed {
            number: reason.number(),
            count: 0,
        },
        Ok(()) => Listed {
            number: ACCEPTED,
            count: fill(&game, history, flags, buffer),
        },
    }
}

// By the flags of the game.
pub fn legals(game: Game, history: &[u8], buffer: &mut [u16]) -> Listed
    ensures { Filled (TrueState game × RoomIn game (length history.now)) (rules.list_answer (view_of game) game.flags buffer.old) (rules.legals (view_of game) history.now game.flags) buffer.old result buffer.new }
{
    legals_by(game, history, game.flags, buffer)
}
