// The text of a reply grows byte by byte.
ghost use Rattle.std.specs.Prelude.{◌≡◌, ◌+◌, ◌≤◌, ◌++◌, length};

use arrayvec::ArrayVec;
use lines::command::MAX_LINE;

// So many bytes hold every reply: the longest is a line that is given back, with a line feed behind it.
pub const REPLY_BYTES: usize = MAX_LINE + 1;

// The text so far.
pub type Text = ArrayVec<u8, REPLY_BYTES>;

// A text behind what is there, in a vector of any capacity that has room for it.
pub fn put_text<const CAPACITY: usize>(out: &mut ArrayVec<u8, CAPACITY>, text: &[u8])
    requires { length out.old.items + length text.now ≤ CAPACITY }
    ensures { out.new.items ≡ out.old.items ++ text.now }
{
    for &byte in text {
        out.push(byte);
    }
}
