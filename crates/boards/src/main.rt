// Boards made by hand: built from colours, drawn and asked. What it writes is known by heart and stands in `stdout`.
#![tactic(auto)]

use board::goban::Board;
use chains::group::index;
use counting::goban::number_of_chains;
use drawing::draw::pretty_string;
use gathering::list::chain_liberties;
use grouping::group::chain_at;
use making::make::from_colours;
use points::sizes::{MAX_AREA, MAX_SIDE};
use points::stones::{BLACK, WHITE};
use std::io;
use std::io::{Print, Write};

// As many bytes as a picture may have.
const PICTURE_BYTES: usize = 4096;

// As many of the bytes as there are.
fn write_front(rt: &impl Print, buffer: &[u8], count: usize) -> io::Result<()> {
    io::writer(rt).write_all(&buffer[..count.min(buffer.len())])
}

fn say(rt: &impl Print, number: usize) -> io::Result<()> {
    print!(rt; "{number} ")
}

// The picture, after a line with the number of chains.
fn draw(rt: &impl Print, board: Board) -> io::Result<()> {
    print!(rt; "chains ")?;
    say(rt, number_of_chains(board).chains)?;
    println!(rt; "")?;
    let mut buffer = [0u8; PICTURE_BYTES];
    let listed = pretty_string(board, &mut buffer);
    write_front(rt, &buffer, listed.count)
}

// The board of these colours, drawn after the number that it was answered with.
fn made(rt: &impl Print, height: u8, width: u8, colours: &[u8]) -> io::Result<Board> {
    let placed = from_colours(height, width, colours);
    print!(rt; "from colours ")?;
    say(rt, placed.answer as usize)?;
    println!(rt; "")?;
    let board = placed.board;
    draw(rt, board)?;
    Ok(board)
}

// What the board tells of the chain at a point: answer, colour, stones, liberties, least point.
fn ask(rt: &impl Print, board: Board, row: u8, column: u8) -> io::Result<()> {
    let chain = chain_at(board, row, column);
    print!(rt; "chain ")?;
    say(rt, chain.answer as usize)?;
    say(rt, chain.colour as usize)?;
    say(rt, chain.stones)?;
    say(rt, chain.liberties)?;
    say(rt, chain.origin)?;
    println!(rt; "")
}

fn say_all(rt: &impl Print, points: &[u16], count: usize) -> io::Result<()> {
    for &point in points.iter().take(count) {
        say(rt, index(point))?;
    }
    Ok(())
}

// The liberties of the chain at a point: answer, how many, and which.
fn list(rt: &impl Print, board: Board, row: u8, column: u8) -> io::Result<()> {
    let mut points = [0u16; MAX_AREA];
    let listed = chain_liberties(board, row, column, &mut points);
    print!(rt; "liberties ")?;
    say(rt, listed.number as usize)?;
    say(rt, listed.count)?;
    say_all(rt, &points, listed.count)?;
    println!(rt; "")
}

// Black and White by turns on every point.
fn chequered() -> [u8; MAX_AREA] {
    let mut colours = [BLACK; MAX_AREA];
    for i in 0..MAX_AREA {
        if i % 2 == 1 {
            colours[i] = WHITE;
        }
    }
    colours
}

fn main(rt: HostRuntime) -> io::Result<()> {
    println!(rt; "== refused: size, length, colour, a chain without liberty")?;
    made(&rt, 0, 3, &[])?;
    made(&rt, 2, 2, &[0, 1, 2])?;
    made(&rt, 2, 2, &[0, 1, 2, 3])?;
    made(&rt, 2, 2, &[2, 1, 1, 0])?;
    println!(rt; "== every point a chain of its own, and none has a liberty")?;
    let full = chequered();
    made(&rt, MAX_SIDE as u8, MAX_SIDE as u8, &full)?;
    println!(rt; "== four chains around a point, and what is off the board")?;
    let around = made(&rt, 3, 3, &[0, 1, 0, 1, 0, 1, 0, 1, 0])?;
    ask(&rt, around, 0, 1)?;
    ask(&rt, around, 1, 1)?;
    ask(&rt, around, 3, 0)?;
    println!(rt; "== one chain: shared liberties are counted once")?;
    let cross = made(&rt, 3, 3, &[0, 1, 0, 1, 1, 1, 0, 1, 0])?;
    ask(&rt, cross, 2, 1)?;
    println!(rt; "== both colours, a chain that goes round a corner, one in atari")?;
    let mixed = made(
        &rt,
        4,
        5,
        &[1, 1, 2, 0, 0, 1, 2, 2, 0, 1, 1, 2, 0, 2, 1, 1, 0, 2, 0, 2],
    )?;
    ask(&rt, mixed, 3, 0)?;
    ask(&rt, mixed, 0, 2)?;
    ask(&rt, mixed, 2, 4)?;
    ask(&rt, mixed, 3, 4)?;
    list(&rt, mixed, 1, 4)?;
    println!(rt; "== one row: its ends are corners, the rest is the upper edge")?;
    made(&rt, 1, 7, &[0, 1, 1, 0, 1, 1, 0])?;
    Ok(())
}
