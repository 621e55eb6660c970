// Boards by value: made, judged and asked.
ghost use Rattle.std.specs.Prelude.{◌≡◌, true, false, ◌||◌};
ghost use Rattle.board.specs.True.{TrueBoard};
ghost use Rattle.making.specs.Making.{NewBoard, FromColours};
ghost use Rattle.vetting.specs.Answered.{Answered, off_board};
ghost use Rattle.queries.specs.Goban.{no_colour, colour_of, no_test, breathes};
ghost use Rattle.counting.specs.Goban.{no_size, size_of, no_hash, hash_of, no_stones, stones_of, no_chains, chains_of};
ghost use Rattle.grouping.specs.Group.{no_chain, chain_of, liberty_at};

use board::goban::Board;
use board::judge::judge;
use counting::goban::{
    ChainsAnswer, HashAnswer, SizeAnswer, StonesAnswer, number_of_chains, number_of_stones, size,
    zobrist_hash,
};
use grouping::group::{ChainAnswer, chain_at, contains_liberty};
use making::make::{from_colours, new_board};
use placing::place::Placed;
use queries::goban::{ColourAnswer, TestAnswer, get_color, has_liberties};

#[unsafe(no_mangle)]
pub extern "C" fn samtrekhu_new_board(height: u8, width: u8) -> Placed
    ensures { NewBoard height width result }
{
    new_board(height, width)
}

#[unsafe(no_mangle)]
pub extern "C" fn samtrekhu_from_colours(height: u8, width: u8, colours: &[u8]) -> Placed
    ensures { FromColours height width colours.now result }
{
    from_colours(height, width, colours)
}

#[unsafe(no_mangle)]
pub extern "C" fn samtrekhu_is_true_board(board: Board) -> bool
    ensures sound { result ≡ true → TrueBoard board }
    ensures complete { TrueBoard board → result ≡ true }
{
    judge(board)
}

#[unsafe(no_mangle)]
pub extern "C" fn samtrekhu_size(board: Board) -> SizeAnswer
    ensures { Answered board false no_size (size_of board) result }
{
    size(board)
}

#[unsafe(no_mangle)]
pub extern "C" fn samtrekhu_zobrist_hash(board: Board) -> HashAnswer
    ensures { Answered board false no_hash (hash_of board) result }
{
    zobrist_hash(board)
}

#[unsafe(no_mangle)]
pub extern "C" fn samtrekhu_number_of_stones(board: Board) -> StonesAnswer
    ensures { Answered board false no_stones (stones_of board) result }
{
    number_of_stones(board)
}

#[unsafe(no_mangle)]
pub extern "C" fn samtrekhu_number_of_chains(board: Board) -> ChainsAnswer
    ensures { Answered board false no_chains (chains_of board) result }
{
    number_of_chains(board)
}

#[unsafe(no_mangle)]
pub extern "C" fn samtrekhu_get_color(board: Board, row: u8, column: u8) -> ColourAnswer
    ensures { Answered board (off_board board row column) no_colour (colour_of board row column) result }
{
    get_color(board, row, column)
}

#[unsafe(no_mangle)]
pub extern "C" fn samtrekhu_has_liberties(board: Board, row: u8, column: u8) -> TestAnswer
    ensures { Answered board (off_board board row column) no_test (breathes board row column) result }
{
    has_liberties(board, row, column)
}

#[unsafe(no_mangle)]
pub extern "C" fn samtrekhu_chain_at(board: Board, row: u8, column: u8) -> ChainAnswer
    ensures { Answered board (off_board board row column) no_chain (chain_of board row column) result }
{
    chain_at(board, row, column)
}

#[unsafe(no_mangle)]
pub extern "C" fn samtrekhu_contains_liberty(
    board: Board,
    row: u8,
    column: u8,
    other_row: u8,
    other_column: u8,
) -> TestAnswer
    ensures { Answered board (off_board board row column || off_board board other_row other_column) no_test (liberty_at board row column other_row other_column) result }
{
    contains_liberty(board, row, column, other_row, other_column)
}
