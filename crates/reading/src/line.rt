// One line is read as a command: its first word names the call, and the words behind are read by it.
ghost use Rattle.std.specs.Prelude.{◌≡◌, Some};
ghost use Rattle.spelling.specs.Text.{words};
ghost use Rattle.lines.specs.Command.{name_of, called, given, meaning};
ghost use Rattle.lines.specs.Reads.{Reads};

use lines::command::{Fault, MAX_LINE, Name, Read};
use lines::read::{
    is_word, read_alone, read_check, read_handicap, read_legals, read_new, read_resign, read_stone,
};
use spelling::words::{next_word, text_of};

const HASH: u8 = b'#';

// Name by name: where a word is matched with a pattern of bytes, a proof learns its length alone.
#[tactic(auto, unfolding(lines::specs::Command::name_of))]
fn name_of(word: &[u8]) -> Option<Name>
    ensures { result ≡ name_of word.now }
{
    if is_word(word, b"new") {
        return Some(Name::New);
    }
    if is_word(word, b"handicap") {
        return Some(Name::Handicap);
    }
    if is_word(word, b"stone") {
        return Some(Name::Stone);
    }
    if is_word(word, b"pass") {
        return Some(Name::Pass);
    }
    if is_word(word, b"resign") {
        return Some(Name::Resign);
    }
    if is_word(word, b"resume") {
        return Some(Name::Resume);
    }
    if is_word(word, b"check") {
        return Some(Name::Check);
    }
    if is_word(word, b"legals") {
        return Some(Name::Legals);
    }
    if is_word(word, b"state") {
        return Some(Name::State);
    }
    if is_word(word, b"render") {
        return Some(Name::Render);
    }
    None
}

// The words behind a name.
#[tactic(auto, unfolding(lines::specs::Command::called, lines::specs::Steps::Plainly))]
fn read_behind(text: &[u8], name: Name, spots: &mut [u16]) -> Result<Read, Fault>
    ensures { Reads (called (Some name) (words text.now)) spots.old result spots.new }
{
    match name {
        Name::New => read_new(text),
        Name::Handicap => read_handicap(text, spots),
        Name::Stone => read_stone(text),
        Name::Pass => read_alone(text, Ok(Read::Pass)),
        Name::Resign => read_resign(text),
        Name::Resume => read_alone(text, Ok(Read::Resume)),
        Name::Check => read_check(text),
        Name::Legals => read_legals(text),
        Name::State => read_alone(text, Ok(Read::State)),
        Name::Render => read_alone(text, Ok(Read::Render)),
    }
}

fn read_text(text: &[u8], spots: &mut [u16]) -> Result<Read, Fault>
    ensures { Reads (given text.now) spots.old result spots.new }
{
    if text.is_empty() || text[0] == HASH {
        return Ok(Read::Echo);
    }
    let word = next_word(text).ok_or(Fault::Blank)?;
    let name = name_of(word.bytes).ok_or(Fault::Unknown)?;
    read_behind(word.behind, name, spots)
}

// What a line says, without its line feed: any bytes at all. The spots of a handicap are put into the lent buffer.
#[tactic(auto, unfolding(lines::specs::Command::meaning, lines::specs::Command::command_in))]
pub fn read_line(line: &[u8], spots: &mut [u16]) -> Result<Read, Fault>
    ensures { Reads (meaning line.now) spots.old result spots.new }
{
    let text = text_of(line);
    if MAX_LINE < text.len() {
        return Err(Fault::Long);
    }
    read_text(text, spots)
}
