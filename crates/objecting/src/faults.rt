// What is wrong with a line.
ghost use Rattle.std.specs.Prelude.{◌≡◌, ◌+◌, ◌≤◌, ◌++◌, length};
ghost use Rattle.objecting.specs.Faults.{fault};

use arrayvec::ArrayVec;
use lines::command::Fault;
use writing::text::put_text;

// The words for it.
fn words(wrong: Fault) -> &'static [u8]
    ensures said { result.now ≡ fault wrong }
    ensures upper_bound { length result.now ≤ 64 }
{
    match wrong {
        Fault::Long => b"? a line has at most 8192 bytes",
        Fault::Blank => b"? no call",
        Fault::Unknown => b"? no such call",
        Fault::New => b"? new takes height, width, flags and perhaps bytes",
        Fault::Handicap => b"? handicap takes rows and columns in pairs",
        Fault::Stone => b"? stone takes row and column",
        Fault::Resign => b"? resign takes b or w",
        Fault::Check => b"? check takes row, column and flags",
        Fault::Legals => b"? legals takes flags",
        Fault::Alone => b"? this call takes nothing more",
        Fault::Bytes => b"? a game is lent at most 1048576 bytes",
        Fault::Room => b"? more spots than a line can hold",
    }
}

pub fn put_fault<const CAPACITY: usize>(out: &mut ArrayVec<u8, CAPACITY>, wrong: Fault)
    requires { length out.old.items + 64 ≤ CAPACITY }
    ensures put { out.new.items ≡ out.old.items ++ fault wrong }
    ensures upper_bound { length out.new.items ≤ length out.old.items + 64 }
{
    put_text(out, words(wrong));
}
