// What a stone changes in numbers: the ko point, the stones held, the stones put down, and whether a record finds room.
ghost use Rattle.std.specs.Prelude.{◌≡◌, not, ◌&&◌, leb};
ghost use Rattle.rules.specs.Game.{Player};
ghost use Rattle.rules.specs.Records.{capacity};
ghost use Rattle.points.specs.Place.{Within};
ghost use Rattle.history.specs.History.{among, Looking};
ghost use Rattle.game.specs.View.{no_point, ko_of};
ghost use Rattle.playing.specs.After.{Few, HeldAfter, PutAfter};

use game::state::{NO_POINT, Tally};
use history::lent::{capacity_of, is_full};
use points::sizes::RECORD_BYTES;
use points::stones::BLACK;

// The ko point as the state keeps it.
pub fn ko_number(place: Option<usize>) -> u16
    requires { Within no_point place }
    ensures { ko_of result ≡ place }
{
    let Some(point) = place else {
        return NO_POINT;
    };
    point as u16
}

// The prisoners after a stone that took so many of the opponent's stones and lost so many of the mover's own.
pub fn held_after(held: Tally, mover: u8, taken: u16, lost: u16) -> Tally
    requires { Few held }
    ensures { HeldAfter held mover taken lost result }
{
    if mover == BLACK {
        return Tally {
            black: held.black + (lost as u32),
            white: held.white + (taken as u32),
        };
    }
    Tally {
        black: held.black + (taken as u32),
        white: held.white + (lost as u32),
    }
}

// The mover has put one stone more.
pub fn put_after(put: Tally, mover: u8) -> Tally
    requires { Few put × Player mover }
    ensures { PutAfter put mover result }
{
    if mover == BLACK {
        return Tally {
            black: put.black + 1,
            ..put
        };
    }
    Tally {
        white: put.white + 1,
        ..put
    }
}

// The history has no equal of this record and no room for it. Where it has room, the records are not looked through.
pub fn no_room(history: &[u8], count: usize, bytes: &[u8; RECORD_BYTES]) -> bool
    requires { Looking history.now count bytes.now }
    ensures { result ≡ not (among history.now count bytes.now) && leb (capacity history.now) count }
{
    if count < capacity_of(history) {
        return false;
    }
    is_full(history, count, bytes)
}
