// Numbers as text.
ghost use Rattle.std.specs.Prelude.{◌≡◌, ◌+◌, ◌*◌, ◌≤◌, ◌<◌, ◌++◌, length};
ghost use Rattle.writing.specs.Figures.{decimal, spaced, hex_digit, hex};

use crate::text::put_text;
use arrayvec::ArrayVec;

// The digits of a number.
pub fn put_number<const CAPACITY: usize>(out: &mut ArrayVec<u8, CAPACITY>, number: u64)
    requires { length out.old.items + 20 ≤ CAPACITY }
    ensures put { out.new.items ≡ out.old.items ++ decimal number }
    ensures upper_bound { length out.new.items ≤ length out.old.items + 20 }
{
    let mut digits = [0u8; 20];
    let count = io::decimal(number, &mut digits);
    put_text(out, &digits[..count]);
}

// A space and the digits of a number.
#[tactic(auto, unfolding(crate::specs::Figures::spaced))]
pub fn put_spaced<const CAPACITY: usize>(out: &mut ArrayVec<u8, CAPACITY>, number: u64)
    requires { length out.old.items + 21 ≤ CAPACITY }
    ensures put { out.new.items ≡ out.old.items ++ spaced (decimal number) }
    ensures upper_bound { length out.new.items ≤ length out.old.items + 21 }
{
    out.push(b' ');
    put_number(out, number);
}

#[tactic(auto, unfolding(crate::specs::Figures::hex_digit))]
fn hex_digit(digit: u8) -> u8
    requires { digit < 16 }
    ensures { result ≡ hex_digit digit }
{
    if digit < 10 {
        return b'0' + digit;
    }
    b'a' + (digit - 10)
}

// Two digits a byte.
pub fn put_hex<const CAPACITY: usize>(out: &mut ArrayVec<u8, CAPACITY>, bytes: &[u8])
    requires { length out.old.items + 2 * length bytes.now ≤ CAPACITY }
    ensures { out.new.items ≡ out.old.items ++ hex bytes.now }
{
    for &byte in bytes {
        out.push(hex_digit(byte / 16));
        out.push(hex_digit(byte % 16));
    }
}
