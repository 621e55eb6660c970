// The colours as bytes, and the picture of a board: the crate's `to_vec` and `pretty_string`.
ghost use Rattle.std.specs.Prelude.{◌≡◌, ◌+◌, ◌≤◌, ◌<◌, length, get_or};
ghost use Rattle.rules.specs.Sizes.{max_area};
ghost use Rattle.rules.specs.Lists.{tabulate};
ghost use Rattle.rules.specs.Picture as pictures;
ghost use Rattle.board.specs.Board.{colours_of};
ghost use Rattle.board.specs.True.{TrueBoard};
ghost use Rattle.viewing.specs.Front.{Front};
ghost use Rattle.drawing.specs.Picture.{signed};
ghost use Rattle.listing.specs.Lists.{length_answer, Left, Answered};

use board::goban::Board;
use board::judge::judge;
use listing::list::{Listed, length_refusal};
use points::answers::{ACCEPTED, BAD_LENGTH, DAMAGED};
use points::coord::{area, two_to_1dim};
use points::sizes::MAX_AREA;
use points::stones::{BLACK, WHITE, colour_at};
use viewing::view::view_of;

const NEWLINE: u8 = 10;

// Writes the first colours into the buffer.
fn copy_colours(colours: &[u8; MAX_AREA], end: usize, buffer: &mut [u8])
    requires { (end ≤ max_area) × (end ≤ length buffer.old) }
    ensures { Front (tabulate (λ i. get_or colours.now i 0) 0 end) buffer.old end buffer.new }
{
    buffer[..end].copy_from_slice(&colours[..end]);
}

fn colours_true(board: Board, buffer: &mut [u8]) -> Listed
    requires { TrueBoard board }
    ensures { Left (length_answer board.height board.width (length buffer.old)) (colours_of board) buffer.old result buffer.new }
{
    if let Err(reason) = length_refusal(board.height, board.width, buffer.len()) {
        return Listed {
            number: reason.number(),
            count: 0,
        };
    }
    let view = view_of(board);
    let end = area(board.height, board.width);
    copy_colours(&view.colours, end, buffer);
    Listed {
        number: ACCEPTED,
        count: end,
    }
}

// The colours of the points, row by row: the crate's `to_vec`, and its `matrix` with the rows one behind the other.
pub fn to_vec(board: Board, buffer: &mut [u8]) -> Listed
    ensures { Answered board (length_answer board.height board.width (length buffer.old)) (colours_of board) buffer.old result buffer.new }
{
    if judge(board) {
        return colours_true(board, buffer);
    }
    Listed {
        number: DAMAGED,
        count: 0,
    }
}

// The sign of an empty point, by its place.
#[tactic(auto, unfolding(rules::specs::Picture::grid_sign))]
fn grid_sign(height: u8, width: u8, row: u8, column: u8) -> u16
    requires { (row < height) × (column < width) }
    ensures value { result ≡ pictures.grid_sign height width row column }
    ensures upper_bound { result < 0x2600 }
{
    let top = row == 0;
    let bottom = row + 1 == height;
    let left = column == 0;
    let right = column + 1 == width;
    match (top, bottom, left, right) {
        (true, _, true, _) => 0x250F,
        (true, _, false, true) => 0x2513,
        (true, _, false, false) => 0x252F,
        (false, true, true, _) => 0x2517,
        (false, true, false, true) => 0x251B,
        (false, true, false, false) => 0x2537,
        (false, false, true, _) => 0x2520,
        (false, false, false, true) => 0x2528,
        (false, false, false, false) => 0x253C,
    }
}

// The sign of a point.
#[tactic(auto, unfolding(rules::specs::Picture::sign))]
fn sign(colours: &[u8; MAX_AREA], height: u8, width: u8, row: u8, column: u8) -> u16
    requires { (row < height) × (column < width) }
    ensures value { result ≡ pictures.sign height width colours.now row column }
    ensures upper_bound { result < 0x2600 }
{
    match colour_at(colours, two_to_1dim(width, row, column)) {
        BLACK => 0x25CF,
        WHITE => 0x25CB,
        _ => grid_sign(height, width, row, column),
    }
}

// Writes a sign's three bytes, and answers the place behind them.
fn put_sign(buffer: &mut [u8], at: usize, sign: u16) -> usize
    requires { (at + 3 ≤ length buffer.old) × (sign < 0x2600) }
    ensures value { result ≡ at + 1 + 1 + 1 }
    ensures buffer_after { buffer.new ≡ signed buffer.old at sign }
{
    let second = at + 1;
    let third = second + 1;
    buffer[at] = (0xE0 + sign / 4096) as u8;
    buffer[second] = (0x80 + sign / 64 % 64) as u8;
    buffer[third] = (0x80 + sign % 64) as u8;
    third + 1
}

// Draws the board, and answers how many bytes that took.
fn draw(colours: &[u8; MAX_AREA], height: u8, width: u8, buffer: &mut [u8]) -> usize
    requires { pictures.picture_bytes height width ≤ length buffer.old }
    ensures { Front (pictures.picture height width colours.now) buffer.old result buffer.new }
{
    let mut at = 0;
    for row in 0..height {
        for column in 0..width {
            at = put_sign(buffer, at, sign(colours, height, width, row, column));
        }
        buffer[at] = NEWLINE;
        at += 1;
    }
    at
}

fn picture_bytes(height: u8, width: u8) -> usize
    ensures { result ≡ pictures.picture_bytes height width }
{
    usize::from(height) * (3 * usize::from(width) + 1)
}

fn picture_true(board: Board, buffer: &mut [u8]) -> Listed
    requires { TrueBoard board }
    ensures { Left (pictures.picture_answer board.height board.width buffer.old) (pictures.picture board.height board.width (colours_of board)) buffer.old result buffer.new }
{
    if buffer.len() < picture_bytes(board.height, board.width) {
        return Listed {
            number: BAD_LENGTH,
            count: 0,
        };
    }
    let view = view_of(board);
    Listed {
        number: ACCEPTED,
        count: draw(&view.colours, board.height, board.width, buffer),
    }
}

// The picture: one three-byte sign a point, a newline a row.
pub fn pretty_string(board: Board, buffer: &mut [u8]) -> Listed
    ensures { Answered board (pictures.picture_answer board.height board.width buffer.old) (pictures.picture board.height board.width (colours_of board)) buffer.old result buffer.new }
{
    if judge(board) {
        return picture_true(board, buffer);
    }
    Listed {
        number: DAMAGED,
        count: 0,
    }
}
