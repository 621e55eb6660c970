// The sizes of 01, in their one home in code, as specs/Sizes of `rules` is their one home among the definitions.
ghost use Rattle.std.specs.Prelude.{◌≡◌};
ghost use Rattle.rules.specs.Calls.{side_ok};

// height and width reach from 1 to this
pub const MAX_SIDE: usize = 19;
// the points of the largest board
pub const MAX_AREA: usize = MAX_SIDE * MAX_SIDE;
// a liberty set has one bit for each point
pub const LIBERTY_BYTES: usize = (MAX_AREA + 7) / 8;
// the most chains that can stand at rest, each with a liberty
pub const MAX_CHAINS: usize = 4 * MAX_AREA / 5;
// one slot more: the new stone's chain is made before the captured ones go. The same number means 'no chain'
pub const SLOTS: usize = MAX_CHAINS + 1;
// two numbers of the hash table for each point
pub const HASH_ENTRIES: usize = 2 * MAX_AREA;
// a record: hash, colours four to a byte, one zero byte
pub const HASH_BYTES: usize = 8;

pub const COLOUR_BYTES: usize = (MAX_AREA + 3) / 4;

pub const RECORD_BYTES: usize = HASH_BYTES + COLOUR_BYTES + 1;
// the most stones that a game accepts, handicap not counted
pub const MAX_STONES: u16 = 65535;
// the largest flag byte
pub const MAX_FLAGS: u8 = 15;

// A board can have a side of this length.
pub fn is_side(side: u8) -> bool
    ensures { result ≡ side_ok side }
{
    0 < side && side <= (MAX_SIDE as u8)
}
