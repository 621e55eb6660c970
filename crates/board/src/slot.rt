// The chain of one slot, judged: its colour, its stones and how many they are, its ring of links and its liberties.
ghost use Rattle.std.specs.Prelude.{true, ◌≡◌};
ghost use Rattle.owning.specs.Owners.{owner_in};
ghost use Rattle.flooding.specs.Flood.{found, Passed};
ghost use Rattle.board.specs.Judge.{player, chain_good, Lent};

use chains::group::{Chain, index};
use flooding::flood::{Ground, flood};
use flooding::seen::{SEEN_WORDS, liberties_good};
use owning::owners::owner_at;
use owning::ring::ring_good;
use points::sizes::MAX_AREA;
use points::stones::{BLACK, WHITE};

fn is_player(colour: u8) -> bool
    ensures { result ≡ player colour }
{
    colour == BLACK || colour == WHITE
}

pub fn chain_good(
    next: &[u16; MAX_AREA],
    starts: &[bool; MAX_AREA + 1],
    notes: &mut [u16; MAX_AREA],
    queue: &mut [u16; MAX_AREA],
    hash: &mut u64,
    height: u8,
    width: u8,
    slot: usize,
    chain: Chain,
) -> bool
    requires { Lent height width slot next.now starts.now notes.old queue.old hash.old }
    ensures judged { result ≡ chain_good height width (owner_in notes.old) next.now slot chain }
    ensures passed { result ≡ true → Passed height width (found height width (owner_in notes.old) slot chain.origin) chain.colour notes.old notes.new queue.new hash.new }
{
    let colour = chain.colour;
    if !is_player(colour) {
        return false;
    }
    let origin = index(chain.origin);
    if owner_at(notes, origin) != slot {
        return false;
    }
    if !ring_good(notes, next, slot, chain) {
        return false;
    }
    let mut seen = [0u64; SEEN_WORDS];
    let ground = Ground {
        starts,
        height,
        width,
        slot,
        colour,
    };
    let stones = flood(&ground, notes, queue, &mut seen, hash, origin);
    if stones != index(chain.count) {
        return false;
    }
    let kept = chain.liberties;
    liberties_good(kept, seen)
}
