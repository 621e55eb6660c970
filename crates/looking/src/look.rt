// What a board shows of its points and of what stands beside one, read once for the tests. These are numbers alone, so that they can
// be lent while the board stays where it is.
ghost use Rattle.std.specs.Prelude.{cond, ◌≡◌, ◌<◌, ltb, set};
ghost use Rattle.std.specs.Option.{option_map};
ghost use Rattle.rules.specs.Sizes.{max_area, slots};
ghost use Rattle.rules.specs.Colours.{empty};
ghost use Rattle.legality.specs.Near.{seen};
ghost use Rattle.board.specs.Board.{colours_of};
ghost use Rattle.board.specs.True.{TrueBoard};
ghost use Rattle.looking.specs.Seen.{chain_seen, nothing, seen_of, Counted, shown, near_in, Readable, Sees, Partly, known_after};

use board::goban::Board;
use chains::group::Chain;
use legality::near::{Beside, Near};
use points::coord::{area, sides, two_to_1dim};
use points::sizes::{MAX_AREA, SLOTS};
use points::stones::EMPTY;
use sets::liberties::number_of_liberties;

// Of each point the colour, and the liberties and stones of the chain there, 0 at an empty point. These are three arrays, since the colours
// are lent alone to the tests of eyes and to the record.
#[derive(Clone, Copy)]
pub struct Seen {
    pub colours: [u8; MAX_AREA],
    pub liberties: [u16; MAX_AREA],
    pub stones: [u16; MAX_AREA],
}

// What is seen of a board for a stone at a row and a column: with the colours of all points, which are lent beside it, all that the tests and the record
// ask of the board, so that they need no copy of it.
#[derive(Clone, Copy)]
pub struct Sight {
    pub height: u8,
    pub width: u8,
    pub hash: u64,
    // the number of the row and the column
    pub point: usize,
    // what stands beside it
    pub near: Near,
}

// What is seen of a chain.
fn chain_seen(chain: Chain) -> Beside
    ensures { result ≡ chain_seen chain }
{
    Beside {
        colour: chain.colour,
        liberties: number_of_liberties(chain.liberties) as u16,
        stones: chain.count,
    }
}

// What is seen of a chain at one of its points. Its liberties are counted at the first of them, and read there for the others.
fn stone_seen(chain: Chain, liberties: &[u16; MAX_AREA], point: usize) -> Beside
    requires { Counted chain liberties.now point }
    ensures { result ≡ chain_seen chain }
{
    let origin = usize::from(chain.origin);
    if origin < point {
        return Beside {
            colour: chain.colour,
            liberties: liberties[origin],
            stones: chain.count,
        };
    }
    chain_seen(chain)
}

// What is seen where no chain stands.
#[tactic(auto, unfolding(crate::specs::Seen::nothing))]
fn nothing_seen() -> Beside
    ensures { result ≡ nothing }
{
    Beside {
        colour: EMPTY,
        liberties: 0,
        stones: 0,
    }
}

// What the points of a true board show, each read once; beyond the board nothing stands.
pub fn seen_of(board: Board) -> Seen
    requires { TrueBoard board }
    ensures { result ≡ seen_of board.height board.width (colours_of board) }
{
    let mut colours = [EMPTY; MAX_AREA];
    let mut liberties = [0u16; MAX_AREA];
    let mut stones = [0u16; MAX_AREA];
    for point in 0..MAX_AREA {
        let owner = usize::from(board.owners[point]);
        let seen = if owner < SLOTS {
            stone_seen(board.chains[owner], &liberties, point)
        } else {
            nothing_seen()
        };
        colours[point] = seen.colour;
        liberties[point] = seen.liberties;
        stones[point] = seen.stones;
    }
    Seen {
        colours,
        liberties,
        stones,
    }
}

// What is shown at a point, where there is one.
fn shown_at(seen: &Seen, side: Option<usize>) -> Option<Beside>
    ensures { result ≡ option_map (shown seen.now.colours seen.now.liberties seen.now.stones) side }
{
    let q = side?;
    if MAX_AREA <= q {
        return Some(nothing_seen());
    }
    Some(Beside {
        colour: seen.colours[q],
        liberties: seen.liberties[q],
        stones: seen.stones[q],
    })
}

// What stands beside a point, by what is shown.
#[tactic(auto, unfolding(crate::specs::Seen::near_in, rules::specs::Points::sides))]
pub fn near(seen: &Seen, height: u8, width: u8, point: usize) -> Near
    ensures { result ≡ near_in height width seen.now.colours seen.now.liberties seen.now.stones point }
{
    let [below, above, right, left] = sides(height, width, point);
    Near {
        sides: [
            shown_at(seen, below),
            shown_at(seen, above),
            shown_at(seen, right),
            shown_at(seen, left),
        ],
    }
}

// What a true board shows at a point, where there is one.
fn seen_at(board: &Board, side: Option<usize>) -> Option<Beside>
    requires { TrueBoard board.now }
    ensures { result ≡ option_map (seen board.now.height board.now.width (colours_of board.now)) side }
{
    let q = side?;
    if MAX_AREA <= q {
        return Some(nothing_seen());
    }
    let owner = usize::from(board.owners[q]);
    if SLOTS <= owner {
        return Some(nothing_seen());
    }
    Some(chain_seen(board.chains[owner]))
}

// A slot that can be read, whatever owns a point: its owner, or the first where nobody does.
fn readable(owner: usize) -> usize
    ensures { Readable owner result }
{
    if owner < SLOTS {
        return owner;
    }
    0
}

// The colour of a point, by its owner and the colour in the slot that was read.
fn shade(owner: usize, colour: u8) -> u8
    ensures { result ≡ cond (ltb owner slots) colour empty }
{
    if owner < SLOTS {
        return colour;
    }
    EMPTY
}

// What a true board shows for a stone at a row and a column, and the colours of all points, of which the first `read` are known: a row of stones that take
// nothing need not read them again. The board is lent: by value it would be copied. The loop reads a slot for every point and chooses after it: a branch
// there cannot be foreseen, and costs more.
pub fn look_at(
    board: &Board,
    colours: &mut [u8; MAX_AREA],
    read: usize,
    row: u8,
    column: u8,
) -> Sight
    requires true_board { TrueBoard board.now }
    requires partly { Partly board.now read colours.old }
    ensures { Sees board.now row column colours.new result }
{
    let point = two_to_1dim(board.width, row, column);
    let [below, above, right, left] = sides(board.height, board.width, point);
    let near = Near {
        sides: [
            seen_at(board, below),
            seen_at(board, above),
            seen_at(board, right),
            seen_at(board, left),
        ],
    };
    for p in read..area(board.height, board.width) {
        let owner = usize::from(board.owners[p]);
        let slot = readable(owner);
        colours[p] = shade(owner, board.chains[slot].colour);
    }
    Sight {
        height: board.height,
        width: board.width,
        hash: board.hash,
        point,
        near,
    }
}

// The colours once a stone stands on a point, and how many of them are the board's then: all where no stone was removed; else none are relied on.
#[tactic(auto, unfolding(crate::specs::Seen::known_after))]
pub fn keep(colours: &mut [u8; MAX_AREA], point: usize, colour: u8, taken: u16, lost: u16) -> usize
    requires point_lt_max_area { point < max_area }
    ensures coloured { colours.new ≡ set colours.old point colour }
    ensures known { result ≡ known_after taken lost }
{
    colours[point] = colour;
    if taken == 0 && lost == 0 { MAX_AREA } else { 0 }
}
