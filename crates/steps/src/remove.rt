// Removing a chain: its points are owned by none, and each is a liberty of the chains beside it. The board is lent: by value it would
// be copied.
ghost use Rattle.std.specs.Prelude.{◌≡◌, ◌<◌};
ghost use Rattle.rules.specs.Sizes.{slots};
ghost use Rattle.rules.specs.Points as rules;
ghost use Rattle.owning.specs.Owners.{owner_in};
ghost use Rattle.steps.specs.Steps as steps;
ghost use Rattle.steps.specs.Removing.{Removing, Points};

use crate::join::own;
use board::goban::Board;
use chains::group::{Chain, free_chain, index, walk};
use hashing::zobrist::stone_hash;
use owning::owners::owner_at;
use points::coord::sides;
use points::sizes::{MAX_AREA, SLOTS};
use sets::liberties::add_liberty;

// The chain with one liberty more.
#[tactic(auto, unfolding(crate::specs::Steps::gains))]
pub fn gain(chain: Chain, point: usize) -> Chain
    ensures { result ≡ steps.gains point chain }
{
    let liberties = add_liberty(chain.liberties, point);
    Chain { liberties, ..chain }
}

// The chains beside a stone gain its point, but for the chain of the slot, which is removed.
fn grow_beside(
    owners: &[u16; MAX_AREA],
    chains: &mut [Chain; SLOTS],
    height: u8,
    width: u8,
    slot: usize,
    point: usize,
)
    requires { slot < slots }
    ensures { chains.new ≡ steps.gaining (owner_in owners.now) slot point (rules.neighbours height width point) chains.old }
{
    for side in sides(height, width, point) {
        if let Some(beside) = side {
            let owner = owner_at(owners, beside);
            if owner != slot && owner < SLOTS {
                let chain = chains[owner];
                chains[owner] = gain(chain, point);
            }
        }
    }
}

// The hash without stones of this colour on the points.
fn unhash(stones: &[u16], colour: u8, hash: u64) -> u64
    requires { Points stones.now }
    ensures { result ≡ steps.unhashed colour stones.now hash }
{
    let mut result = hash;
    for stone in stones {
        result ^= stone_hash(index(*stone), colour);
    }
    result
}

// The board loses the chain in the slot.
pub fn remove_chain(board: &mut Board, slot: usize)
    requires { Removing board.old slot }
    ensures { board.new ≡ steps.remove board.old slot }
{
    let chain = board.chains[slot];
    let mut ring = [0u16; MAX_AREA];
    let walked = walk(
        &board.next,
        index(chain.origin),
        index(chain.count),
        &mut ring,
    );
    let stones = &ring[..walked];
    for stone in stones {
        let point = index(*stone);
        grow_beside(
            &board.owners,
            &mut board.chains,
            board.height,
            board.width,
            slot,
            point,
        );
    }
    own(&mut board.owners, &board.next, chain, SLOTS);
    board.hash = unhash(stones, chain.colour, board.hash);
    board.chains[slot] = free_chain();
}
