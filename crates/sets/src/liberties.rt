// Liberty sets: one bit for each point, as in the crate's group.rs. A set goes in by value and comes back.
ghost use Rattle.std.specs.Prelude.{◌≡◌, ◌%◌, ◌^◌, ◌<◌, eqb, ltb};
ghost use Rattle.sets.specs.Liberties.{has, none, added, removed, united, number};

use points::sizes::{LIBERTY_BYTES, MAX_AREA};

// The byte whose one bit is the point's.
fn mask(point: usize) -> u8
    ensures { result ≡ 2 ^ (point % 8) }
{
    1u8 << (point % 8)
}

pub fn empty_liberties() -> [u8; LIBERTY_BYTES]
    ensures { result ≡ none }
{
    [0u8; LIBERTY_BYTES]
}

// The set with the point. What is no point of the largest board changes nothing.
pub fn add_liberty(mut set: [u8; LIBERTY_BYTES], point: usize) -> [u8; LIBERTY_BYTES]
    ensures { result ≡ added set point }
{
    if point < MAX_AREA {
        set[point / 8] |= mask(point);
    }
    set
}

// The set without the point.
pub fn remove_liberty(mut set: [u8; LIBERTY_BYTES], point: usize) -> [u8; LIBERTY_BYTES]
    ensures { result ≡ removed set point }
{
    let i = point / 8;
    if i < LIBERTY_BYTES {
        set[i] ^= set[i] & mask(point);
    }
    set
}

#[tactic(auto, unfolding(crate::specs::Liberties::has, crate::specs::Liberties::bit_at))]
pub fn contains_liberty(set: [u8; LIBERTY_BYTES], point: usize) -> bool
    ensures { result ≡ has set point }
{
    let i = point / 8;
    i < LIBERTY_BYTES && (set[i] >> (point % 8)) % 2 == 1
}

// What either set has.
pub fn union_liberties(mut a: [u8; LIBERTY_BYTES], b: [u8; LIBERTY_BYTES]) -> [u8; LIBERTY_BYTES]
    ensures { result ≡ united a b }
{
    // by index: of what is written through `iter_mut` beside `zip` a proof knows nothing
    for i in 0..LIBERTY_BYTES {
        a[i] |= b[i];
    }
    a
}

pub fn number_of_liberties(set: [u8; LIBERTY_BYTES]) -> usize
    ensures { result ≡ number set }
{
    let mut sum = 0;
    for byte in set {
        sum += byte.count_ones() as usize;
    }
    sum
}

pub fn any_liberty(set: [u8; LIBERTY_BYTES]) -> bool
    ensures { result ≡ ltb 0 (number set) }
{
    set != empty_liberties()
}

// Exactly one liberty is left.
pub fn is_atari(set: [u8; LIBERTY_BYTES]) -> bool
    ensures { result ≡ eqb (number set) 1 }
{
    number_of_liberties(set) == 1
}
