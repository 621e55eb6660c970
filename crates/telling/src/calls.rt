// A call that is answered by a number: the number is the reply.
ghost use Rattle.std.specs.Prelude.{◌+◌, ◌≤◌, length};
ghost use Rattle.lines.specs.Command.{max_line};
ghost use Rattle.telling.specs.Told.{Tells};

use arrayvec::ArrayVec;
use game::calls::Answered;
use game::state::Game;
use writing::figures::put_number;

// The game after a call, and how many bytes of history it is lent then.
#[derive(Clone, Copy)]
pub struct Told {
    pub game: Game,
    pub lent: usize,
}

// What a call answered is told.
pub fn tell<const CAPACITY: usize>(
    answered: Answered,
    lent: usize,
    out: &mut ArrayVec<u8, CAPACITY>,
) -> Told
    requires { length out.old.items + max_line ≤ CAPACITY }
    ensures { Tells answered.answer answered.game lent out.old.items result out.new.items }
{
    put_number(out, u64::from(answered.answer));
    Told {
        game: answered.game,
        lent,
    }
}
