// The judge: whether a board, of whatever bytes, is a true board, and how many stones stand on it. Its time is linear in the number of
// points.
ghost use Rattle.std.specs.Prelude.{◌<◌, ◌^◌, true, cond, ◌≡◌, eqb};
ghost use Rattle.board.specs.True.{TrueBoard};
ghost use Rattle.board.specs.Verdict.{Judged};

use crate::goban::Board;
use crate::slot::chain_good;
use chains::group::Chain;
use flooding::edges::row_starts;
use owning::owners::{all_found, all_placed, columns_apart, rows_apart};
use points::sizes::{MAX_AREA, is_side};
use points::stones::{BLACK, WHITE};

// The stones of each colour on a board.
#[derive(Clone, Copy)]
pub struct Stones {
    pub black: u32,
    pub white: u32,
}

// The stones of this colour in one chain.
fn stones_in(chain: Chain, colour: u8) -> u32
    ensures counted { result ≡ cond (eqb chain.colour colour) chain.count 0 }
    ensures few { result < 2 ^ 16 }
{
    if chain.colour == colour {
        return chain.count as u32;
    }
    0
}

// The stones of a true board; none are told of a board that is not true. Most slots are free, and of a free one the count alone is read.
// The board is lent: by value it would be copied.
pub fn judged(board: &Board) -> Option<Stones>
    ensures { Judged board.now result }
{
    let height = board.height;
    let width = board.width;
    if !is_side(height) {
        return None;
    }
    if !is_side(width) {
        return None;
    }
    if !all_placed(&board.owners, height, width) {
        return None;
    }
    let starts = row_starts(height, width);
    let mut notes = board.owners;
    let mut queue = [0u16; MAX_AREA];
    let mut hash = 0u64;
    let mut black = 0u32;
    let mut white = 0u32;
    for (slot, chain) in board.chains.iter().enumerate() {
        if chain.count != 0 {
            if !chain_good(
                &board.next,
                &starts,
                &mut notes,
                &mut queue,
                &mut hash,
                height,
                width,
                slot,
                *chain,
            ) {
                return None;
            }
            black += stones_in(*chain, BLACK);
            white += stones_in(*chain, WHITE);
        }
    }
    if !all_found(&notes, height, width) {
        return None;
    }
    if !rows_apart(&board.owners, &starts, &notes, height, width) {
        return None;
    }
    if !columns_apart(&board.owners, &notes, height, width) {
        return None;
    }
    if board.hash != hash {
        return None;
    }
    Some(Stones { black, white })
}

pub fn judge(board: Board) -> bool
    ensures sound { result ≡ true → TrueBoard board }
    ensures complete { TrueBoard board → result ≡ true }
{
    judged(&board).is_some()
}
