// The empty points that the flood of a chain saw beside its stones: one bit for each point, as in a liberty set, but in words. A word that
// was just stored is read back at once; bytes that were stored one by one are waited for when they are read together.
ghost use Rattle.std.specs.Prelude.{false, ◌&&◌, ◌≡◌, ℕ, ◌+◌, ◌≤◌, ◌<◌, ltb, length, get_or};
ghost use Rattle.rules.specs.Sizes.{max_area};
ghost use Rattle.rules.specs.Lists as lists;
ghost use Rattle.sets.specs.Liberties.{liberty_bits, set_of, number};
ghost use Rattle.flooding.specs.Flood.{seen_words, sees, Saw, two_bytes, four_bytes, word_of};

use points::sizes::{LIBERTY_BYTES, MAX_AREA};

pub const SEEN_WORDS: usize = (MAX_AREA + 63) / 64;

pub fn see(seen: &mut [u64; SEEN_WORDS], point: usize)
    requires { point < max_area }
    ensures { Saw point seen.old seen.new }
{
    seen[point / 64] |= 1u64 << (point % 64);
}

// A byte of a liberty set; beyond the last they are 0.
fn byte(set: [u8; LIBERTY_BYTES], i: usize) -> u64
    ensures is { result ≡ get_or set i 0 }
    ensures small { result < 0x100 }
{
    if i < LIBERTY_BYTES { set[i] as u64 } else { 0 }
}

// Two bytes of a liberty set from the i-th on as one number, four, and eight.
fn two(set: [u8; LIBERTY_BYTES], i: usize) -> u64
    requires { i < liberty_bits }
    ensures is { result ≡ two_bytes set i }
    ensures small { result < 0x10000 }
{
    byte(set, i) + byte(set, i + 1) * 0x100
}

fn four(set: [u8; LIBERTY_BYTES], i: usize) -> u64
    requires { i + 2 < liberty_bits }
    ensures is { result ≡ four_bytes set i }
    ensures small { result < 0x100000000 }
{
    two(set, i) + two(set, i + 2) * 0x10000
}

fn word(set: [u8; LIBERTY_BYTES], i: usize) -> u64
    requires { i + 6 < liberty_bits }
    ensures { result ≡ word_of set i }
{
    four(set, i) + four(set, i + 4) * 0x100000000
}

// The liberties that a chain keeps are the points that were seen, and there is one.
pub fn liberties_good(kept: [u8; LIBERTY_BYTES], seen: [u64; SEEN_WORDS]) -> bool
    requires { (q : ℕ) → liberty_bits ≤ q → sees seen q ≡ false }
    ensures { result ≡ lists.same kept (set_of (sees seen)) && ltb 0 (number kept) }
{
    let mut some = 0u64;
    for i in 0..SEEN_WORDS {
        if seen[i] != word(kept, 8 * i) {
            return false;
        }
        some |= seen[i];
    }
    some != 0
}
