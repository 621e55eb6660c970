// Whether a query is answered: the board is judged alone, then the point that is asked for must lie on it.
ghost use Rattle.std.specs.Prelude.{false, ◌||◌};
ghost use Rattle.vetting.specs.Answered.{Judged, off_board};

use board::goban::Board;
use board::judge::judge;
use points::answers::Refusal;
use points::coord::is_coord_valid;

pub fn answer_of(board: Board) -> Result<(), Refusal>
    ensures { Judged board false result }
{
    if !judge(board) {
        return Err(Refusal::Damaged);
    }
    Ok(())
}

pub fn answer_at(board: Board, row: u8, column: u8) -> Result<(), Refusal>
    ensures { Judged board (off_board board row column) result }
{
    answer_of(board)?;
    if !is_coord_valid(board.height, board.width, row, column) {
        return Err(Refusal::OffBoard);
    }
    Ok(())
}

// Two points are asked for.
pub fn answer_at_both(
    board: Board,
    row: u8,
    column: u8,
    other_row: u8,
    other_column: u8,
) -> Result<(), Refusal>
    ensures { Judged board (off_board board row column || off_board board other_row other_column) result }
{
    answer_at(board, row, column)?;
    if !is_coord_valid(board.height, board.width, other_row, other_column) {
        return Err(Refusal::OffBoard);
    }
    Ok(())
}
