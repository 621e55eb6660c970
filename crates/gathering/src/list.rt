// The lists by the names of the crate's goban.rs: each is the list that answers one question.
ghost use Rattle.rules.specs.Colours.{empty};
ghost use Rattle.listing.specs.Lists.{Lists};

use board::goban::Board;
use listing::list::{Listed, list};
use points::stones::EMPTY;
use viewing::shows::{Local, Question};

// The points that are not empty.
pub fn get_stones(board: Board, buffer: &mut [u16]) -> Listed
    ensures { Lists board Question.Stones buffer.old result buffer.new }
{
    list(board, Question::Stones, buffer)
}

// The points of a colour, the empty ones for the colour 0.
pub fn get_coords_by_color(board: Board, colour: u8, buffer: &mut [u16]) -> Listed
    ensures { Lists board (Question.Coloured colour) buffer.old result buffer.new }
{
    list(board, Question::Coloured(colour), buffer)
}

// The empty points. The crate's `get_empty_idx` yields the others.
pub fn get_empty_coords(board: Board, buffer: &mut [u16]) -> Listed
    ensures { Lists board (Question.Coloured empty) buffer.old result buffer.new }
{
    list(board, Question::Coloured(EMPTY), buffer)
}

// The stones of the chain at a point; of an empty point none.
pub fn chain_stones(board: Board, row: u8, column: u8, buffer: &mut [u16]) -> Listed
    ensures { Lists board (Question.At row column Local.Chain) buffer.old result buffer.new }
{
    list(board, Question::At(row, column, Local::Chain), buffer)
}

// The liberties of the chain at a point; of an empty point none.
pub fn chain_liberties(board: Board, row: u8, column: u8, buffer: &mut [u16]) -> Listed
    ensures { Lists board (Question.At row column Local.Liberties) buffer.old result buffer.new }
{
    list(board, Question::At(row, column, Local::Liberties), buffer)
}

// The points beside a point.
pub fn get_connected_points(board: Board, row: u8, column: u8, buffer: &mut [u16]) -> Listed
    ensures { Lists board (Question.At row column Local.Points) buffer.old result buffer.new }
{
    list(board, Question::At(row, column, Local::Points), buffer)
}

// The stones beside a point.
pub fn get_connected_stones(board: Board, row: u8, column: u8, buffer: &mut [u16]) -> Listed
    ensures { Lists board (Question.At row column Local.Stones) buffer.old result buffer.new }
{
    list(board, Question::At(row, column, Local::Stones), buffer)
}

// The empty points beside a point.
pub fn get_liberties(board: Board, row: u8, column: u8, buffer: &mut [u16]) -> Listed
    ensures { Lists board (Question.At row column Local.Empties) buffer.old result buffer.new }
{
    list(board, Question::At(row, column, Local::Empties), buffer)
}

// The chains beside a point, each by its least point.
pub fn get_connected_groups(board: Board, row: u8, column: u8, buffer: &mut [u16]) -> Listed
    ensures { Lists board (Question.At row column Local.Chains) buffer.old result buffer.new }
{
    list(board, Question::At(row, column, Local::Chains), buffer)
}
