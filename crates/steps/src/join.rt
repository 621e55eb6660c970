// What joining two chains does to owners, links and the table, as the crate's goban.rs does it: the stones of the one go over to the
// other's slot, and the two rings of links become one.
ghost use Rattle.std.specs.Prelude.{◌+◌, ◌<◌, ◌^◌, ◌≡◌, set};
ghost use Rattle.rules.specs.Sizes.{max_area};
ghost use Rattle.chains.specs.Walk.{walked};
ghost use Rattle.steps.specs.Steps.{owning, united};
ghost use Rattle.steps.specs.Links.{Walkable};

use chains::group::{Chain, index};
use points::sizes::MAX_AREA;
use sets::liberties::union_liberties;

// Gives the slot each stone of the chain: the points that the links lead to from its origin on.
pub fn own(owners: &mut [u16; MAX_AREA], next: &[u16; MAX_AREA], chain: Chain, slot: usize)
    requires walkable { Walkable next.now chain.origin chain.count }
    requires slot_bound { slot < 2 ^ 16 }
    ensures { owners.new ≡ owning slot (walked next.now chain.origin chain.count) owners.old }
{
    let mut point = index(chain.origin);
    for _ in 0..chain.count {
        owners[point] = slot as u16;
        point = index(next[point]);
    }
}

// Makes one ring of the links of two: from the last stone of each to the origin of the other.
pub fn relink(next: &mut [u16; MAX_AREA], a: Chain, b: Chain)
    requires { (a.last < max_area) × (b.last < max_area) }
    ensures { next.new ≡ set (set next.old a.last b.origin) b.last a.origin }
{
    next[index(a.last)] = b.origin;
    next[index(b.last)] = a.origin;
}

// Two chains as one: the lesser origin leads.
#[tactic(auto, unfolding(crate::specs::Steps::united))]
pub fn unite(a: Chain, b: Chain) -> Chain
    requires { a.count + b.count < 2 ^ 16 }
    ensures { result ≡ united a b }
{
    let liberties = union_liberties(a.liberties, b.liberties);
    let (origin, last) = if a.origin < b.origin {
        (a.origin, b.last)
    } else {
        (b.origin, a.last)
    };
    Chain {
        liberties,
        origin,
        last,
        count: a.count + b.count,
        ..a
    }
}
