// Chains, as the crate's group.rs has them: one chain in a slot of the table, and the walk along the links of its stones.
ghost use Rattle.std.specs.Prelude.{◌≡◌, ◌++◌, drop, replicate};
ghost use Rattle.rules.specs.Sizes.{slots};
ghost use Rattle.chains.specs.Group.{free_chain, new_chain, first_free};
ghost use Rattle.chains.specs.Walk.{walked, walk_length};

use points::sizes::{LIBERTY_BYTES, MAX_AREA, SLOTS};
use points::stones::EMPTY;
use sets::liberties::empty_liberties;

// One chain: its stones go round from origin to last and back by the board's links. Its slot is free if the count is 0.
#[repr(C)]
#[derive(Clone, Copy)]
pub struct Chain {
    pub liberties: [u8; LIBERTY_BYTES],
    pub colour: u8,
    pub origin: u16,
    pub last: u16,
    pub count: u16,
}

#[tactic(auto, unfolding(crate::specs::Group::free_chain))]
pub fn free_chain() -> Chain
    ensures { result ≡ free_chain }
{
    Chain {
        liberties: empty_liberties(),
        colour: EMPTY,
        origin: 0,
        last: 0,
        count: 0,
    }
}

pub fn free_table() -> [Chain; SLOTS]
    ensures { result ≡ replicate slots free_chain }
{
    [free_chain(); SLOTS]
}

// The chain of one stone.
#[tactic(auto, unfolding(crate::specs::Group::new_chain))]
pub fn new_chain(colour: u8, point: u16, liberties: [u8; LIBERTY_BYTES]) -> Chain
    ensures { result ≡ new_chain colour point liberties }
{
    Chain {
        liberties,
        colour,
        origin: point,
        last: point,
        count: 1,
    }
}

// The least slot that is free.
pub fn free_slot(chains: &[Chain; SLOTS]) -> Option<usize>
    ensures { result ≡ first_free 0 chains.now }
{
    chains.iter().position(|chain| chain.count == 0)
}

// A link as an index.
pub fn index(link: u16) -> usize
    ensures { result ≡ link }
{
    usize::from(link)
}

// Writes the points that the links lead to from origin on, in order: count of them, and no more than the largest board has; it
// stops before a number that is no point. Answers how many it wrote.
pub fn walk(next: &[u16; MAX_AREA], origin: usize, count: usize, out: &mut [u16; MAX_AREA]) -> usize
    ensures length { result ≡ walk_length next.now origin count }
    ensures written { out.new ≡ walked next.now origin result ++ drop result out.old }
{
    let mut point = origin;
    for n in 0..count.min(MAX_AREA) {
        if MAX_AREA <= point {
            return n;
        }
        out[n] = point as u16;
        point = index(next[point]);
    }
    count.min(MAX_AREA)
}
