// Boards made whole: a new one, and one from given colours.
ghost use Rattle.std.specs.Prelude.{◌≡◌, ◌&&◌, ltb};
ghost use Rattle.rules.specs.Lists.{any};
ghost use Rattle.rules.specs.Colours.{white};
ghost use Rattle.rules.specs.Answers.{number};
ghost use Rattle.rules.specs.Calls.{side_ok};
ghost use Rattle.points.specs.Reason.{reason};
ghost use Rattle.board.specs.Board.{new_board};
ghost use Rattle.making.specs.Making.{NewBoard, FromColours};

use board::goban::empty_board;
use placing::place::{Placed, place};
use points::answers::{ACCEPTED, Refusal};
use points::coord::area;
use points::sizes::is_side;
use points::stones::WHITE;

fn is_size(height: u8, width: u8) -> bool
    ensures { result ≡ side_ok height && side_ok width }
{
    is_side(height) && is_side(width)
}

// What stands for a board that was refused: an empty 1 × 1 one.
fn refused(refusal: Refusal) -> Placed
    ensures { (result.answer ≡ number (reason refusal)) × (result.board ≡ new_board 1 1) }
{
    Placed {
        answer: refusal.number(),
        board: empty_board(1, 1),
    }
}

pub fn new_board(height: u8, width: u8) -> Placed
    ensures { NewBoard height width result }
{
    if !is_size(height, width) {
        return refused(Refusal::BadSize);
    }
    Placed {
        answer: ACCEPTED,
        board: empty_board(height, width),
    }
}

// Whether some byte is no colour.
fn any_unknown(colours: &[u8]) -> bool
    ensures { result ≡ any (ltb white) colours.now }
{
    colours.iter().any(|colour| WHITE < *colour)
}

pub fn from_colours(height: u8, width: u8, colours: &[u8]) -> Placed
    ensures { FromColours height width colours.now result }
{
    let new = new_board(height, width);
    if new.answer != ACCEPTED {
        return new;
    }
    if colours.len() != area(height, width) {
        return refused(Refusal::BadLength);
    }
    if any_unknown(colours) {
        return refused(Refusal::BadColour);
    }
    let placed = place(new.board, colours);
    if placed.answer != ACCEPTED {
        return refused(Refusal::NoLiberty);
    }
    placed
}
