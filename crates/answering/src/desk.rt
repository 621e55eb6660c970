// A line is answered: it is read, what it says is done, and the reply is ended with a line feed.
ghost use Rattle.std.specs.Prelude.{◌≤◌, length};
ghost use Rattle.writing.specs.Put.{Put};
ghost use Rattle.answering.specs.Does.{Replies, RepliesIn};

use acting::act::act;
use game::state::Game;
use lines::command::MAX_SPOTS;
use reading::line::read_line;
use telling::calls::Told;
// A buffer of this many bytes holds every reply, and a text is a vector of as many.
pub use writing::text::{REPLY_BYTES, Text};

// A line and a reply end with it.
pub const LINE_FEED: u8 = b'\n';

// The game after the line, how many bytes of history it is to be lent from now on, and how many bytes the reply has.
#[derive(Clone, Copy)]
pub struct Replied {
    pub game: Game,
    pub lent: usize,
    pub count: usize,
}

// The text is put at the front of the lent buffer.
fn hand_out(text: &Text, out: &mut [u8]) -> usize
    requires { length text.now.items ≤ length out.old }
    ensures { Put text.now.items out.old 0 result out.new }
{
    let count = text.len();
    out[..count].copy_from_slice(text.as_slice());
    count
}

// Any game, any lent bytes, any line without its line feed. The reply is all that the lent text holds then, whatever it held before: who answers many
// lines makes one text for all.
pub fn reply(game: Game, lent: &mut [u8], line: &[u8], text: &mut Text) -> Told
    ensures { RepliesIn line.now game lent.old result lent.new text.new.items }
{
    text.clear();
    let mut spots = [0u16; MAX_SPOTS];
    let read = read_line(line, &mut spots);
    let told = act(game, lent, read, &spots, line, text);
    text.push(LINE_FEED);
    told
}

// The same with any buffer, at whose front the reply is put.
pub fn answer(game: Game, lent: &mut [u8], line: &[u8], out: &mut [u8]) -> Replied
    ensures { Replies line.now game lent.old out.old result lent.new out.new }
{
    if out.len() < REPLY_BYTES {
        return Replied {
            game,
            lent: lent.len(),
            count: 0,
        };
    }
    let mut text = Text::new();
    let told = reply(game, lent, line, &mut text);
    let count = hand_out(&text, out);
    Replied {
        game: told.game,
        lent: told.lent,
        count,
    }
}
