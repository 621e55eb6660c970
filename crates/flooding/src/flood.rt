// The flood of one slot: from the origin of its chain by points that it owns. Each stone found is noted with its colour, its number goes
// into the hash, and the empty points beside it are seen. Notes and queue are lent, so that no slot begins with an empty array.
ghost use Rattle.std.specs.Prelude.{[], ◌∷◌, ◌≡◌, ◌<◌, replicate};
ghost use Rattle.rules.specs.Sizes.{max_area};
ghost use Rattle.rules.specs.Lists.{present};
ghost use Rattle.rules.specs.Points as rules;
ghost use Rattle.points.specs.Place.{Within};
ghost use Rattle.owning.specs.Owners.{owner_in, RowStarts};
ghost use Rattle.flooding.specs.Flood.{seen_words, Queued, Ready, Looked, Flooded};

use crate::edges::{above, below, left, right};
use crate::seen::{SEEN_WORDS, see};
use chains::group::index;
use hashing::zobrist::stone_hash;
use owning::owners::NO_CHAIN;
use points::sizes::{MAX_AREA, SLOTS};

// The slot that a flood goes over, on its board, and what is lent to read: which points begin a row. What is lent to
// be written stands apart: of a `&mut` in a struct each clause would have to say that it is the same one after the call.
#[derive(Clone, Copy)]
pub struct Ground<'a> {
    pub starts: &'a [bool; MAX_AREA + 1],
    pub height: u8,
    pub width: u8,
    pub slot: usize,
    pub colour: u8,
}

// Notes the stone and puts it into the queue. Answers how many stand there then.
fn push(
    ground: &Ground,
    notes: &mut [u16; MAX_AREA],
    queue: &mut [u16; MAX_AREA],
    hash: &mut u64,
    tail: usize,
    point: usize,
) -> usize
    requires { (tail < max_area) × (point < max_area) }
    ensures { Queued ground.now.colour point notes.old queue.old tail hash.old notes.new queue.new result hash.new }
{
    notes[point] = NO_CHAIN + (ground.colour as u16);
    queue[tail] = point as u16;
    *hash ^= stone_hash(point, ground.colour);
    tail + 1
}

// Looks at a place beside a stone of the slot: off the board, empty, a stone not found yet, or neither.
fn look(
    ground: &Ground,
    notes: &mut [u16; MAX_AREA],
    queue: &mut [u16; MAX_AREA],
    seen: &mut [u64; SEEN_WORDS],
    hash: &mut u64,
    tail: usize,
    place: Option<usize>,
) -> usize
    requires { Ready ground.now.height ground.now.width ground.now.slot ground.now.colour notes.old queue.old tail hash.old × Within (rules.area ground.now.height ground.now.width) place }
    ensures { Looked ground.now.height ground.now.width ground.now.slot ground.now.colour (present (place ∷ [])) notes.old queue.old seen.old tail notes.new queue.new seen.new result hash.new }
{
    let Some(point) = place else {
        return tail;
    };
    let owner = index(notes[point]);
    if owner == SLOTS {
        see(seen, point);
        return tail;
    }
    if owner != ground.slot {
        return tail;
    }
    push(ground, notes, queue, hash, tail, point)
}

fn look_around(
    ground: &Ground,
    notes: &mut [u16; MAX_AREA],
    queue: &mut [u16; MAX_AREA],
    seen: &mut [u64; SEEN_WORDS],
    hash: &mut u64,
    tail: usize,
    point: usize,
) -> usize
    requires { RowStarts ground.now.height ground.now.width ground.now.starts.now × Ready ground.now.height ground.now.width ground.now.slot ground.now.colour notes.old queue.old tail hash.old × (point < rules.area ground.now.height ground.now.width) }
    ensures { Looked ground.now.height ground.now.width ground.now.slot ground.now.colour (rules.neighbours ground.now.height ground.now.width point) notes.old queue.old seen.old tail notes.new queue.new seen.new result hash.new }
{
    let Ground {
        starts,
        height,
        width,
        ..
    } = *ground;
    let down = below(height, width, point);
    let first = look(ground, notes, queue, seen, hash, tail, down);
    let up = above(height, width, point);
    let second = look(ground, notes, queue, seen, hash, first, up);
    let east = right(starts, height, width, point);
    let third = look(ground, notes, queue, seen, hash, second, east);
    let west = left(starts, height, width, point);
    look(ground, notes, queue, seen, hash, third, west)
}

// Answers how many stones are found.
pub fn flood(
    ground: &Ground,
    notes: &mut [u16; MAX_AREA],
    queue: &mut [u16; MAX_AREA],
    seen: &mut [u64; SEEN_WORDS],
    hash: &mut u64,
    origin: usize,
) -> usize
    requires { RowStarts ground.now.height ground.now.width ground.now.starts.now × Ready ground.now.height ground.now.width ground.now.slot ground.now.colour notes.old queue.old 0 hash.old × (seen.old ≡ replicate seen_words 0) × (origin < rules.area ground.now.height ground.now.width) × (owner_in notes.old origin ≡ ground.now.slot) }
    ensures { Flooded ground.now.height ground.now.width ground.now.slot ground.now.colour origin notes.old notes.new queue.new seen.new result hash.new }
{
    let mut tail = push(ground, notes, queue, hash, 0, origin);
    // the queue grows while it is gone through, which a `for` over its places would not see
    let mut head = 0;
    while head < tail {
        let point = index(queue[head]);
        tail = look_around(ground, notes, queue, seen, hash, tail, point);
        head += 1;
    }
    tail
}
