// What was read is done, and the text of the reply is put behind what was there.
ghost use Rattle.std.specs.Prelude.{[], ◌+◌, ◌≤◌, length};
ghost use Rattle.rules.specs.Calls as rules;
ghost use Rattle.placing.specs.Placing.{spots_of};
ghost use Rattle.game.specs.View.{view_of, turn_of};
ghost use Rattle.spelling.specs.Text.{text_of};
ghost use Rattle.lines.specs.Command.{max_line};
ghost use Rattle.objecting.specs.Faults.{fault};
ghost use Rattle.telling.specs.Reply.{Starts, Calls, Lays, Checks};
ghost use Rattle.telling.specs.Told.{Acted, Unlent};
ghost use Rattle.acting.specs.Reply.{Lists, States, Draws, Says};
ghost use Rattle.acting.specs.Acts.{Acts, Ready};

use arrayvec::ArrayVec;
use checking::check::check_point_by;
use drawing::draw::pretty_string;
use game::calls::{Answered, new_game, pass, resign, resume};
use game::state::Game;
use legals::list::legals_by;
use lines::command::{Fault, Read};
use objecting::faults::put_fault;
use playing::handicap::handicap;
use playing::stone::stone;
use points::answers::ACCEPTED;
use points::sizes::{MAX_AREA, MAX_SIDE};
use spelling::words::text_of;
use stating::state::put_state;
use telling::calls::{Told, tell};
use wording::replies::put_points;
use writing::figures::{put_hex, put_number, put_spaced};
use writing::text::put_text;

// The bytes of the largest picture.
const PICTURE_BYTES: usize = MAX_SIDE * (3 * MAX_SIDE + 1);

// The text of the line is given back.
fn do_echo<const CAPACITY: usize>(
    game: Game,
    lent: usize,
    line: &[u8],
    out: &mut ArrayVec<u8, CAPACITY>,
) -> Told
    requires { (length out.old.items + max_line ≤ CAPACITY) × (length (text_of line.now) ≤ max_line) }
    ensures { Unlent (Says (text_of line.now) game) lent out.old.items result out.new.items }
{
    put_text(out, text_of(line));
    Told { game, lent }
}

fn do_wrong<const CAPACITY: usize>(
    game: Game,
    lent: usize,
    wrong: Fault,
    out: &mut ArrayVec<u8, CAPACITY>,
) -> Told
    requires { length out.old.items + max_line ≤ CAPACITY }
    ensures { Unlent (Says (fault wrong) game) lent out.old.items result out.new.items }
{
    put_fault(out, wrong);
    Told { game, lent }
}

// The new game is lent as many bytes as the line asks for, whatever was lent before.
fn do_new<const CAPACITY: usize>(
    height: u8,
    width: u8,
    flags: u8,
    asked: usize,
    lent: usize,
    out: &mut ArrayVec<u8, CAPACITY>,
) -> Told
    requires { length out.old.items + max_line ≤ CAPACITY }
    ensures { Unlent (Starts height width flags asked) lent out.old.items result out.new.items }
{
    tell(new_game(height, width, flags), asked, out)
}

fn do_handicap<const CAPACITY: usize>(
    game: Game,
    lent: usize,
    spots: &[u16],
    out: &mut ArrayVec<u8, CAPACITY>,
) -> Told
    requires { length out.old.items + max_line ≤ CAPACITY }
    ensures { Unlent (Calls (rules.handicapped (view_of game) [] (spots_of spots.now)) game) lent out.old.items result out.new.items }
{
    tell(handicap(game, spots), lent, out)
}

// A stone is laid.
fn do_stone<const CAPACITY: usize>(
    game: Game,
    lent: &mut [u8],
    row: u8,
    column: u8,
    out: &mut ArrayVec<u8, CAPACITY>,
) -> Told
    requires { length out.old.items + max_line ≤ CAPACITY }
    ensures { Acted (Lays (rules.stone (view_of game) lent.old row column) game lent.old) out.old.items result lent.new out.new.items }
{
    let bytes = lent.len();
    tell(stone(game, lent, row, column), bytes, out)
}

fn do_pass<const CAPACITY: usize>(game: Game, lent: usize, out: &mut ArrayVec<u8, CAPACITY>) -> Told
    requires { length out.old.items + max_line ≤ CAPACITY }
    ensures { Unlent (Calls (rules.pass (view_of game) []) game) lent out.old.items result out.new.items }
{
    tell(pass(game), lent, out)
}

fn do_resign<const CAPACITY: usize>(
    game: Game,
    lent: usize,
    player: u8,
    out: &mut ArrayVec<u8, CAPACITY>,
) -> Told
    requires { length out.old.items + max_line ≤ CAPACITY }
    ensures { Unlent (Calls (rules.resign (view_of game) [] (turn_of player)) game) lent out.old.items result out.new.items }
{
    tell(resign(game, player), lent, out)
}

fn do_resume<const CAPACITY: usize>(
    game: Game,
    lent: usize,
    out: &mut ArrayVec<u8, CAPACITY>,
) -> Told
    requires { length out.old.items + max_line ≤ CAPACITY }
    ensures { Unlent (Calls (rules.resume (view_of game) []) game) lent out.old.items result out.new.items }
{
    tell(resume(game), lent, out)
}

fn do_check<const CAPACITY: usize>(
    game: Game,
    lent: &[u8],
    row: u8,
    column: u8,
    flags: u8,
    out: &mut ArrayVec<u8, CAPACITY>,
) -> Told
    requires { length out.old.items + max_line ≤ CAPACITY }
    ensures { Acted (Checks (rules.check_answer (view_of game) lent.now flags row column) game lent.now) out.old.items result lent.now out.new.items }
{
    let answer = check_point_by(game, lent, flags, row, column);
    tell(Answered { answer, game }, lent.len(), out)
}

fn do_legals<const CAPACITY: usize>(
    game: Game,
    lent: &[u8],
    flags: u8,
    out: &mut ArrayVec<u8, CAPACITY>,
) -> Told
    requires { length out.old.items + max_line ≤ CAPACITY }
    ensures { Acted (Lists (rules.flags_answer flags) (rules.legals (view_of game) lent.now flags) game lent.now) out.old.items result lent.now out.new.items }
{
    let bytes = lent.len();
    let mut points = [0u16; MAX_AREA];
    let listed = legals_by(game, lent, flags, &mut points);
    if listed.number != ACCEPTED {
        let refused = Answered {
            answer: listed.number,
            game,
        };
        return tell(refused, bytes, out);
    }
    let count = listed.count;
    put_number(out, u64::from(ACCEPTED));
    put_spaced(out, count as u64);
    put_points(out, &points[..count]);
    Told { game, lent: bytes }
}

fn do_state<const CAPACITY: usize>(
    game: Game,
    lent: usize,
    out: &mut ArrayVec<u8, CAPACITY>,
) -> Told
    requires { length out.old.items + max_line ≤ CAPACITY }
    ensures { Unlent (States game) lent out.old.items result out.new.items }
{
    put_state(out, game);
    Told { game, lent }
}

fn do_render<const CAPACITY: usize>(
    game: Game,
    lent: usize,
    out: &mut ArrayVec<u8, CAPACITY>,
) -> Told
    requires { length out.old.items + max_line ≤ CAPACITY }
    ensures { Unlent (Draws game) lent out.old.items result out.new.items }
{
    let mut picture = [0u8; PICTURE_BYTES];
    let board = game.board;
    let drawn = pretty_string(board, &mut picture);
    if drawn.number != ACCEPTED {
        let refused = Answered {
            answer: drawn.number,
            game,
        };
        return tell(refused, lent, out);
    }
    put_hex(out, &picture[..drawn.count]);
    Told { game, lent }
}

// What was read is done, or what is wrong is said. Each call has a function of its own: what one answers has a place on the stack, which is
// set to zero where its function is entered.
pub fn act<const CAPACITY: usize>(
    game: Game,
    lent: &mut [u8],
    read: Result<Read, Fault>,
    spots: &[u16],
    line: &[u8],
    out: &mut ArrayVec<u8, CAPACITY>,
) -> Told
    requires { (length out.old.items + max_line ≤ CAPACITY) × Ready line.now spots.now read }
    ensures { Acted (Acts line.now spots.now game read lent.old) out.old.items result lent.new out.new.items }
{
    let bytes = lent.len();
    match read {
        Err(wrong) => do_wrong(game, bytes, wrong, out),
        Ok(asked) => match asked {
            Read::Echo => do_echo(game, bytes, line, out),
            Read::New(height, width, flags, room) => do_new(height, width, flags, room, bytes, out),
            Read::Handicap(count) => do_handicap(game, bytes, &spots[..count], out),
            Read::Stone(row, column) => do_stone(game, lent, row, column, out),
            Read::Pass => do_pass(game, bytes, out),
            Read::Resign(player) => do_resign(game, bytes, player, out),
            Read::Resume => do_resume(game, bytes, out),
            Read::Check(row, column, flags) => do_check(game, lent, row, column, flags, out),
            Read::Legals(flags) => do_legals(game, lent, flags, out),
            Read::State => do_state(game, bytes, out),
            Read::Render => do_render(game, bytes, out),
        },
    }
}
