// The words behind the name of a call are read.
ghost use Rattle.std.specs.Prelude.{◌≡◌, ◌+◌, ◌*◌};
ghost use Rattle.rules.specs.Lists.{same};
ghost use Rattle.spelling.specs.Text.{words};
ghost use Rattle.spelling.specs.Number.{numbers, byte_of};
ghost use Rattle.lines.specs.Command.{new_of, stone_of, check_of, legals_of, resign_of, alone, handicap_of};
ghost use Rattle.lines.specs.Command as commands;
ghost use Rattle.lines.specs.Reads.{Reads};
ghost use Rattle.lines.specs.Steps.{Plainly, Spotted, Laying, Laid};

use crate::command::{Fault, Read, USUAL_LENT};
use points::stones::{BLACK, WHITE};
use spelling::number::{MAX_LENT, byte_of, count_numbers, number_of, numbers};
use spelling::words::{at_end, next_word};

// The word is this name.
pub fn is_word(word: &[u8], name: &[u8]) -> bool
    ensures { result ≡ same word.now name.now }
{
    word == name
}

pub fn read_new(text: &[u8]) -> Result<Read, Fault>
    ensures { Plainly (new_of (numbers (words text.now))) result }
{
    if let Some(found) = numbers::<3>(text) {
        let [height, width, flags] = found;
        return Ok(Read::New(byte_of(height), byte_of(width), byte_of(flags), USUAL_LENT));
    }
    let [height, width, flags, bytes] = numbers::<4>(text).ok_or(Fault::New)?;
    if MAX_LENT < bytes {
        return Err(Fault::Bytes);
    }
    Ok(Read::New(byte_of(height), byte_of(width), byte_of(flags), bytes))
}

pub fn read_stone(text: &[u8]) -> Result<Read, Fault>
    ensures { Plainly (stone_of (numbers (words text.now))) result }
{
    let [row, column] = numbers::<2>(text).ok_or(Fault::Stone)?;
    Ok(Read::Stone(byte_of(row), byte_of(column)))
}

pub fn read_check(text: &[u8]) -> Result<Read, Fault>
    ensures { Plainly (check_of (numbers (words text.now))) result }
{
    let [row, column, flags] = numbers::<3>(text).ok_or(Fault::Check)?;
    Ok(Read::Check(byte_of(row), byte_of(column), byte_of(flags)))
}

pub fn read_legals(text: &[u8]) -> Result<Read, Fault>
    ensures { Plainly (legals_of (numbers (words text.now))) result }
{
    let [flags] = numbers::<1>(text).ok_or(Fault::Legals)?;
    Ok(Read::Legals(byte_of(flags)))
}

#[tactic(auto, unfolding(crate::specs::Command::player_of, crate::specs::Steps::Plainly))]
fn read_player(word: &[u8]) -> Result<Read, Fault>
    ensures { Plainly (commands.player_of word.now) result }
{
    if is_word(word, b"b") {
        return Ok(Read::Resign(BLACK));
    }
    if is_word(word, b"w") {
        return Ok(Read::Resign(WHITE));
    }
    Err(Fault::Resign)
}

pub fn read_resign(text: &[u8]) -> Result<Read, Fault>
    ensures { Plainly (resign_of (words text.now)) result }
{
    let word = next_word(text).ok_or(Fault::Resign)?;
    if at_end(word.behind) {
        return read_player(word.bytes);
    }
    Err(Fault::Resign)
}

// A spot in one number, and the text behind it.
#[derive(Clone, Copy)]
struct NextSpot<'a> {
    spot: u16,
    behind: &'a [u8],
}

// A row and a column in one number.
fn spot_of(row: usize, column: usize) -> u16
    ensures { result ≡ 256 * byte_of row + byte_of column }
{
    256 * u16::from(byte_of(row)) + u16::from(byte_of(column))
}

// The next spot, where two numbers are left.
fn next_spot(text: &[u8]) -> Option<NextSpot>
    ensures { Spotted text.now result }
{
    let row = next_word(text)?;
    let column = next_word(row.behind)?;
    let spot = spot_of(number_of(row.bytes)?, number_of(column.bytes)?);
    Some(NextSpot {
        spot,
        behind: column.behind,
    })
}

// Writes so many spots. They were counted before, so the way out is never taken.
fn lay_spots(text: &[u8], spots: &mut [u16], count: usize)
    requires { Laying text.now count spots.old }
    ensures { Laid text.now spots.old spots.new }
{
    let mut rest = text;
    for laid in 0..count {
        let Some(taken) = next_spot(rest) else {
            return;
        };
        spots[laid] = taken.spot;
        rest = taken.behind;
    }
}

// The numbers are counted before any spot is written, so that a line that is wrong leaves the buffer as it was.
pub fn read_handicap(text: &[u8], spots: &mut [u16]) -> Result<Read, Fault>
    ensures { Reads (handicap_of (numbers (words text.now))) spots.old result spots.new }
{
    let count = count_numbers(text).ok_or(Fault::Handicap)?;
    if count % 2 != 0 {
        return Err(Fault::Handicap);
    }
    let pairs = count / 2;
    if spots.len() < pairs {
        return Err(Fault::Room);
    }
    lay_spots(text, spots, pairs);
    Ok(Read::Handicap(pairs))
}

// A call with no words behind its name, or what is wrong with it already.
pub fn read_alone(text: &[u8], read: Result<Read, Fault>) -> Result<Read, Fault>
    ensures { (command : commands.Command) → Plainly command read → Plainly (alone command (words text.now)) result }
{
    if at_end(text) {
        read
    } else {
        Err(Fault::Alone)
    }
}
