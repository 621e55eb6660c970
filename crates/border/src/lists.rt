// The lists of a board, in a buffer that is lent: points, colours and the picture.
ghost use Rattle.std.specs.Prelude.{length};
ghost use Rattle.rules.specs.Colours.{empty};
ghost use Rattle.rules.specs.Picture as pictures;
ghost use Rattle.board.specs.Board.{colours_of};
ghost use Rattle.viewing.specs.declared.shows.Question.TheVariants as question;
ghost use Rattle.viewing.specs.declared.shows.Local.TheVariants as local;
ghost use Rattle.listing.specs.Lists.{length_answer, Answered, Lists};

use board::goban::Board;
use drawing::draw::{pretty_string, to_vec};
use gathering::list::{
    chain_liberties, chain_stones, get_connected_groups, get_connected_points,
    get_connected_stones, get_coords_by_color, get_empty_coords, get_liberties, get_stones,
};
use listing::list::Listed;

#[unsafe(no_mangle)]
pub extern "C" fn samtrekhu_get_stones(board: Board, buffer: &mut [u16]) -> Listed
    ensures { Lists board question.Stones buffer.old result buffer.new }
{
    get_stones(board, buffer)
}

#[unsafe(no_mangle)]
pub extern "C" fn samtrekhu_get_coords_by_color(
    board: Board,
    colour: u8,
    buffer: &mut [u16],
) -> Listed
    ensures { Lists board (question.Coloured colour) buffer.old result buffer.new }
{
    get_coords_by_color(board, colour, buffer)
}

#[unsafe(no_mangle)]
pub extern "C" fn samtrekhu_get_empty_coords(board: Board, buffer: &mut [u16]) -> Listed
    ensures { Lists board (question.Coloured empty) buffer.old result buffer.new }
{
    get_empty_coords(board, buffer)
}

#[unsafe(no_mangle)]
pub extern "C" fn samtrekhu_chain_stones(
    board: Board,
    row: u8,
    column: u8,
    buffer: &mut [u16],
) -> Listed
    ensures { Lists board (question.At row column local.Chain) buffer.old result buffer.new }
{
    chain_stones(board, row, column, buffer)
}

#[unsafe(no_mangle)]
pub extern "C" fn samtrekhu_chain_liberties(
    board: Board,
    row: u8,
    column: u8,
    buffer: &mut [u16],
) -> Listed
    ensures { Lists board (question.At row column local.Liberties) buffer.old result buffer.new }
{
    chain_liberties(board, row, column, buffer)
}

#[unsafe(no_mangle)]
pub extern "C" fn samtrekhu_get_connected_points(
    board: Board,
    row: u8,
    column: u8,
    buffer: &mut [u16],
) -> Listed
    ensures { Lists board (question.At row column local.Points) buffer.old result buffer.new }
{
    get_connected_points(board, row, column, buffer)
}

#[unsafe(no_mangle)]
pub extern "C" fn samtrekhu_get_connected_stones(
    board: Board,
    row: u8,
    column: u8,
    buffer: &mut [u16],
) -> Listed
    ensures { Lists board (question.At row column local.Stones) buffer.old result buffer.new }
{
    get_connected_stones(board, row, column, buffer)
}

#[unsafe(no_mangle)]
pub extern "C" fn samtrekhu_get_liberties(
    board: Board,
    row: u8,
    column: u8,
    buffer: &mut [u16],
) -> Listed
    ensures { Lists board (question.At row column local.Empties) buffer.old result buffer.new }
{
    get_liberties(board, row, column, buffer)
}

#[unsafe(no_mangle)]
pub extern "C" fn samtrekhu_get_connected_groups(
    board: Board,
    row: u8,
    column: u8,
    buffer: &mut [u16],
) -> Listed
    ensures { Lists board (question.At row column local.Chains) buffer.old result buffer.new }
{
    get_connected_groups(board, row, column, buffer)
}

#[unsafe(no_mangle)]
pub extern "C" fn samtrekhu_to_vec(board: Board, buffer: &mut [u8]) -> Listed
    ensures { Answered board (length_answer board.height board.width (length buffer.old)) (colours_of board) buffer.old result buffer.new }
{
    to_vec(board, buffer)
}

#[unsafe(no_mangle)]
pub extern "C" fn samtrekhu_pretty_string(board: Board, buffer: &mut [u8]) -> Listed
    ensures { Answered board (pictures.picture_answer board.height board.width buffer.old) (pictures.picture board.height board.width (colours_of board)) buffer.old result buffer.new }
{
    pretty_string(board, buffer)
}
