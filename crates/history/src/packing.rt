// The record of a board: its hash low byte first, its colours four to a byte, one zero byte.
ghost use Rattle.std.specs.Prelude.{◌≡◌, ◌++◌, ◌+◌, ◌*◌, ◌<◌, length, take, drop};
ghost use Rattle.rules.specs.Sizes.{hash_bytes, colour_bytes, record_bytes};
ghost use Rattle.rules.specs.Records.{low_bytes};
ghost use Rattle.history.specs.Packing.{colour_part, record_by, Packing};

use points::sizes::{COLOUR_BYTES, HASH_BYTES, MAX_AREA, RECORD_BYTES};
use points::stones::colour_at;

// Four colours in one byte, two bits each, the first lowest.
fn packed(first: u8, second: u8, third: u8, fourth: u8) -> u8
    requires { (first < 4) × (second < 4) × (third < 4) × (fourth < 4) }
    ensures { result ≡ first + 4 * second + 16 * third + 64 * fourth }
{
    first + 4 * second + 16 * third + 64 * fourth
}

// Writes the hash to the first bytes, low byte first.
fn write_hash(bytes: &mut [u8; RECORD_BYTES], hash: u64)
    ensures { bytes.new ≡ low_bytes hash_bytes hash ++ drop hash_bytes bytes.old }
{
    bytes[..HASH_BYTES].copy_from_slice(&hash.to_le_bytes());
}

// Writes the colours to the bytes after the hash.
fn write_colours(bytes: &mut [u8; RECORD_BYTES], colours: &[u8; MAX_AREA])
    requires { Packing colours.now }
    ensures { bytes.new ≡ take hash_bytes bytes.old ++ (colour_part colours.now ++ drop (hash_bytes + colour_bytes) bytes.old) }
{
    for i in 0..COLOUR_BYTES {
        let p = 4 * i;
        let first = colour_at(colours, p);
        let second = colour_at(colours, p + 1);
        let third = colour_at(colours, p + 2);
        let fourth = colour_at(colours, p + 3);
        bytes[HASH_BYTES + i] = packed(first, second, third, fourth);
    }
}

// The record of a board with this hash and these colours.
pub fn record_by(hash: u64, colours: &[u8; MAX_AREA]) -> [u8; RECORD_BYTES]
    requires { Packing colours.now }
    ensures { result ≡ record_by hash colours.now }
{
    let mut bytes = [0u8; RECORD_BYTES];
    write_hash(&mut bytes, hash);
    write_colours(&mut bytes, colours);
    bytes
}
