// A board by value: sizes, hash, the slot that owns each point, the links from stone to stone of a chain, and the chains.
ghost use Rattle.std.specs.Prelude.{◌≡◌};
ghost use Rattle.board.specs.Board.{new_board};

use chains::group::{Chain, free_table};
use owning::owners::NO_CHAIN;
use points::sizes::{MAX_AREA, SLOTS};

#[repr(C)]
#[derive(Clone, Copy)]
pub struct Board {
    pub height: u8,
    pub width: u8,
    pub hash: u64,
    pub owners: [u16; MAX_AREA],
    pub next: [u16; MAX_AREA],
    pub chains: [Chain; SLOTS],
}

// A board with no stone on it.
pub fn empty_board(height: u8, width: u8) -> Board
    ensures { result ≡ new_board height width }
{
    let owners = [NO_CHAIN; MAX_AREA];
    let next = [0u16; MAX_AREA];
    let chains = free_table();
    Board {
        height: height,
        width: width,
        hash: 0,
        owners: owners,
        next: next,
        chains: chains,
    }
}
