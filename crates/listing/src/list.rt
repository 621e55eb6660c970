// The points that answer a question, as ascending indexes in a lent buffer. Any bytes are taken as a board, and any buffer.
ghost use Rattle.std.specs.Prelude.{◌≡◌, ◌≤◌, length};
ghost use Rattle.rules.specs.Sizes.{max_area};
ghost use Rattle.rules.specs.Lists.{pick, below};
ghost use Rattle.rules.specs.Points as points;
ghost use Rattle.points.specs.Reason.{answer_of};
ghost use Rattle.board.specs.Board.{colours_of};
ghost use Rattle.board.specs.True.{TrueBoard};
ghost use Rattle.viewing.specs.Seen.{passed};
ghost use Rattle.viewing.specs.Front.{Front};
ghost use Rattle.listing.specs.Lists.{length_answer, list_answer, listed, Left, Lists};

use board::goban::Board;
use board::judge::judge;
use points::answers::{ACCEPTED, DAMAGED, Refusal};
use points::coord::{area, is_coord_valid};
use points::stones::WHITE;
use viewing::shows::{Question, shows};
use viewing::view::{View, view_of};

// The number of the answer, and how many places were filled: none where the call is refused. C reads it, and lends the buffer that it counts.
#[repr(C)]
#[derive(Clone, Copy)]
pub struct Listed {
    pub number: u8,
    pub count: usize,
}

// Writes the points of the list from the front of the buffer on, and answers how many there are.
fn fill(view: &View, height: u8, width: u8, question: Question, buffer: &mut [u16]) -> usize
    requires { (points.area height width ≤ max_area) × (points.area height width ≤ length buffer.old) }
    ensures { Front (pick (passed height width view.now.colours view.now.leads question) (below (points.area height width))) buffer.old result buffer.new }
{
    let mut count = 0;
    for point in 0..area(height, width) {
        if shows(view, height, width, question, point) {
            buffer[count] = point as u16;
            count += 1;
        }
    }
    count
}

// The buffer needs a place for each point of the board, also where fewer would do.
#[tactic(auto, unfolding(crate::specs::Lists::length_answer, rules::specs::Answers::refuse))]
pub fn length_refusal(height: u8, width: u8, length: usize) -> Result<(), Refusal>
    ensures { answer_of result ≡ length_answer height width length }
{
    if length < area(height, width) {
        return Err(Refusal::BadLength);
    }
    Ok(())
}

fn refusal(height: u8, width: u8, length: usize, question: Question) -> Result<(), Refusal>
    ensures { answer_of result ≡ list_answer height width length question }
{
    match question {
        Question::Stones => length_refusal(height, width, length),
        Question::Coloured(colour) => {
            length_refusal(height, width, length)?;
            if WHITE < colour {
                return Err(Refusal::BadColour);
            }
            Ok(())
        }
        Question::At(row, column, _) => {
            if !is_coord_valid(height, width, row, column) {
                return Err(Refusal::OffBoard);
            }
            length_refusal(height, width, length)
        }
    }
}

// The list of a true board.
fn list_true(board: Board, question: Question, buffer: &mut [u16]) -> Listed
    requires { TrueBoard board }
    ensures { Left (list_answer board.height board.width (length buffer.old) question) (listed board.height board.width (colours_of board) question) buffer.old result buffer.new }
{
    if let Err(reason) = refusal(board.height, board.width, buffer.len(), question) {
        return Listed {
            number: reason.number(),
            count: 0,
        };
    }
    let view = view_of(board);
    Listed {
        number: ACCEPTED,
        count: fill(&view, board.height, board.width, question, buffer),
    }
}

// The list that answers a question, on any board.
pub fn list(board: Board, question: Question, buffer: &mut [u16]) -> Listed
    ensures { Lists board question buffer.old result buffer.new }
{
    if judge(board) {
        return list_true(board, question, buffer);
    }
    Listed {
        number: DAMAGED,
        count: 0,
    }
}
