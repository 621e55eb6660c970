// Lines come in from a reader, and each reply goes out to a writer as soon as its line has ended.
#![tactic(auto)]

ghost use Rattle.std.specs.Prelude.{[], ◌≡◌, ◌≤◌, ◌<◌, ◌∷◌, ◌++◌, length};
ghost use Rattle.spelling.specs.Number.{max_lent};

use answering::desk::{LINE_FEED, Text, reply};
use arrayvec::ArrayVec;
use game::calls::new_game;
use game::state::Game;
use lines::command::{MAX_LINE, USUAL_LENT};
use spelling::number::MAX_LENT;
use std::io;
use std::io::{Input, Print, Read, Write};

// One byte more than a line may have with its carriage return: so many tell that a line is too long, and the rest of it is passed over.
const LINE_BYTES: usize = MAX_LINE + 2;

// How many bytes one read takes at most.
const READ_BYTES: usize = 4096;

// A byte of a line is kept while there is room.
fn keep(line: &mut ArrayVec<u8, LINE_BYTES>, byte: u8)
    ensures room { length line.old.items < LINE_BYTES → line.new.items ≡ line.old.items ++ byte ∷ [] }
    ensures full { LINE_BYTES ≤ length line.old.items → line.new ≡ line.old }
{
    if !line.is_full() {
        line.push(byte);
    }
}

// The game, the bytes of history that games are lent, how many of them it is, the bytes of a line that has not ended yet, and the last reply.
#[derive(Drop)]
struct Desk<'a> {
    game: Game,
    history: &'a mut [u8],
    lent: usize,
    line: ArrayVec<u8, LINE_BYTES>,
    text: Text,
}

impl<'a> Desk<'a> {
    // The line has ended: it is answered.
    fn end_line<W: Write>(&mut self, output: &mut W) -> io::Result<()> {
        let lent = self.lent.min(self.history.len());
        let told = reply(
            self.game,
            &mut self.history[..lent],
            self.line.as_slice(),
            &mut self.text,
        );
        self.game = told.game;
        self.lent = told.lent;
        self.line.clear();
        output.write_all(self.text.as_slice())
    }

    fn take_byte<W: Write>(&mut self, byte: u8, output: &mut W) -> io::Result<()> {
        if byte == LINE_FEED {
            return self.end_line(output);
        }
        keep(&mut self.line, byte);
        Ok(())
    }

    // One read: whether there was anything to read.
    fn read_once<R: Read, W: Write>(&mut self, input: &mut R, output: &mut W) -> io::Result<bool> {
        let mut buffer = [0u8; READ_BYTES];
        let count = input.read(&mut buffer)?;
        for &byte in &buffer[..count] {
            self.take_byte(byte, output)?;
        }
        Ok(0 < count)
    }

    // Reads to the end. A proved loop has to end, and nothing says that the input does: so the loop counts its turns, to a number that
    // no run comes to.
    fn read_all<R: Read, W: Write>(&mut self, input: &mut R, output: &mut W) -> io::Result<()> {
        for _ in 0..u64::MAX {
            if !self.read_once(input, output)? {
                break;
            }
        }
        Ok(())
    }
}

// The bytes of history that games are lent. What is said of the array is its length alone, which is too large to be counted out.
fn empty_history() -> [u8; MAX_LENT]
    ensures { max_lent ≡ length result }
{
    [0u8; MAX_LENT]
}

// Before the first new game stands the fresh one of 1 × 1 with flags 0. A last line without a line feed counts too.
pub fn serve(rt: &(impl Input + Print)) -> io::Result<()> {
    let mut input = rt.reader();
    let mut output = io::writer(rt);
    let mut history = empty_history();
    let mut desk = Desk {
        game: new_game(1, 1, 0).game,
        history: &mut history,
        lent: USUAL_LENT,
        line: ArrayVec::new(),
        text: Text::new(),
    };
    desk.read_all(&mut input, &mut output)?;
    if !desk.line.is_empty() {
        desk.end_line(&mut output)?;
    }
    Ok(())
}
