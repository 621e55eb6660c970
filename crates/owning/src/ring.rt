// The ring of a slot's chain: its links go round from the origin to last and back, by stones of the slot.
ghost use Rattle.std.specs.Prelude.{◌&&◌, ◌||◌, ◌≡◌, ◌<◌, eqb, ltb};
ghost use Rattle.rules.specs.Sizes.{slots};
ghost use Rattle.owning.specs.Owners.{owner_in, ring};

use crate::owners::owner_at;
use chains::group::{Chain, index};
use points::sizes::MAX_AREA;

// The point that the ring has reached after some links is a stone of the slot, and comes after the origin once it has left it.
fn on_ring(owners: &[u16; MAX_AREA], slot: usize, origin: usize, links: usize, point: usize) -> bool
    ensures { result ≡ eqb (owner_in owners.now point) slot && (eqb links 0 || ltb origin point) }
{
    owner_at(owners, point) == slot && (links == 0 || origin < point)
}

pub fn ring_good(
    owners: &[u16; MAX_AREA],
    next: &[u16; MAX_AREA],
    slot: usize,
    chain: Chain,
) -> bool
    requires { slot < slots }
    ensures { result ≡ ring (owner_in owners.now) next.now slot chain }
{
    let origin = index(chain.origin);
    let mut previous = origin;
    let mut point = origin;
    for links in 0..index(chain.count) {
        if !on_ring(owners, slot, origin, links, point) {
            return false;
        }
        previous = point;
        point = index(next[point]);
    }
    previous == index(chain.last) && point == origin
}
