// A stone: the tests in the order of 01, the present board's record, the stone on the board, and the numbers that it changes. The game goes
// through them as its board and its numbers apart, since each function that takes and gives a board copies its 17 KB.
ghost use Rattle.std.specs.Prelude.{List, ◌≡◌, ℕ, length};
ghost use Rattle.rules.specs.Records.{record_of};
ghost use Rattle.rules.specs.Calls as rules;
ghost use Rattle.points.specs.Reason.{answer_of};
ghost use Rattle.board.specs.declared.goban.Board.{Board};
ghost use Rattle.history.specs.Packing.{record_by};
ghost use Rattle.game.specs.Clock.{game_of};
ghost use Rattle.game.specs.View.{view_of, TrueState, RoomIn};
ghost use Rattle.game.specs.Promise.{Called};
ghost use Rattle.playing.specs.Turn.{last_answer, Ready, Finished, Shown, FirstTested, Undecided, Settling, Tested};
ghost use Rattle.playing.specs.After.{Moving, Moved};

use crate::count::{held_after, ko_number, no_room, put_after};
use board::goban::Board;
use checking::point::told_by;
use checking::superko::Leave;
use game::calls::{Answered, player_of};
use game::clock::{Clock, clock_of, game_of};
use game::judge::judge_with;
use game::state::Game;
use history::lent::{is_recorded, note_board};
use history::packing::record_by;
use laying::lay::lay;
use looking::look::{Sight, look_at};
use points::answers::{ACCEPTED, DAMAGED, Refusal};
use points::sizes::{MAX_AREA, MAX_STONES};
use points::stones::{EMPTY, other};

// An accepted stone: its point, its colour and how many records there are with the present board's.
#[derive(Clone, Copy)]
pub struct Turn {
    pub point: usize,
    pub mover: u8,
    pub records: usize,
}

// What the records and the count tell of it: the board it leaves is recorded, it is one stone too many, or there is no room for a record.
fn last_answer(again: bool, accepted: u16, full: bool) -> Result<(), Refusal>
    ensures { answer_of result ≡ last_answer again accepted full }
{
    if again {
        return Err(Refusal::SuperKo);
    }
    if accepted == MAX_STONES {
        return Err(Refusal::MoveLimit);
    }
    if full {
        return Err(Refusal::HistoryFull);
    }
    Ok(())
}

// The tests by the records and the count, and the record of the present board where they let the stone pass. Whether the board that it leaves is
// recorded is known.
fn finished(
    sight: Sight,
    colours: &[u8; MAX_AREA],
    clock: Clock,
    history: &mut [u8],
    again: bool,
) -> Result<Turn, Refusal>
    requires { Ready sight colours.now clock (length history.old) }
    ensures { (cols : List ℕ) → record_by sight.hash colours.now ≡ record_of cols → Finished sight clock cols history.old again result history.new }
{
    let bytes = record_by(sight.hash, colours);
    let full = no_room(history, clock.records, &bytes);
    last_answer(again, clock.accepted, full)?;
    let records = note_board(history, clock.records, &bytes);
    Ok(Turn {
        point: sight.point,
        mover: player_of(clock.turn),
        records,
    })
}

// The tests of a stone by what is seen of the board: all of them, for every true state that looks so and has room for its records, unless a capture might
// bring a recorded board back: then there is no turn yet. It takes no board, which would be copied.
pub fn tested(
    sight: Sight,
    colours: &[u8; MAX_AREA],
    clock: Clock,
    history: &mut [u8],
    row: u8,
    column: u8,
) -> Result<Option<Turn>, Refusal>
    requires { Ready sight colours.now clock (length history.old) }
    ensures { (b : Board) → Shown b sight colours.now clock (length history.old) row column → FirstTested (game_of b clock) history.old row column result history.new }
{
    let told = told_by(sight, colours, clock, clock.flags, row, column);
    if clock.passes == 2 {
        return Err(Refusal::GamePaused);
    }
    let leave = told?;
    match leave {
        Leave::IfNew => Ok(None),
        Leave::Free => {
            let turn = finished(sight, colours, clock, history, false)?;
            Ok(Some(turn))
        }
    }
}

// The rest of the tests where a capture might bring a recorded board back: the stone is laid on a copy, and the board that it leaves is looked for.
pub fn settled(
    board: &Board,
    sight: Sight,
    colours: &[u8; MAX_AREA],
    clock: Clock,
    history: &mut [u8],
) -> Result<Turn, Refusal>
    requires { Settling board.now sight colours.now clock (length history.old) }
    ensures { (row column : ℕ) → Shown board.now sight colours.now clock (length history.old) row column → Undecided (game_of board.now clock) row column → Tested (game_of board.now clock) history.old row column result history.new }
{
    let laid = lay(*board, sight.point, player_of(clock.turn), clock.flags);
    let mut left = [EMPTY; MAX_AREA];
    // what stands beside a point of it is not asked
    let seen = look_at(&laid.board, &mut left, 0, 0, 0);
    let record = record_by(seen.hash, &left);
    let again = is_recorded(history, clock.records, &record);
    finished(sight, colours, clock, history, again)
}

// All tests of a stone, by a board and the numbers that make a true state with it.
pub fn all_tested(
    board: &Board,
    sight: Sight,
    colours: &[u8; MAX_AREA],
    clock: Clock,
    history: &mut [u8],
    row: u8,
    column: u8,
) -> Result<Turn, Refusal>
    requires { Shown board.now sight colours.now clock (length history.old) row column }
    ensures { Tested (game_of board.now clock) history.old row column result history.new }
{
    let first = tested(sight, colours, clock, history, row, column)?;
    match first {
        Some(turn) => Ok(turn),
        None => settled(board, sight, colours, clock, history),
    }
}

// The numbers after an accepted stone.
pub fn moved(clock: Clock, records: usize, taken: u16, lost: u16, place: Option<usize>) -> Clock
    requires { Moving clock place }
    ensures { Moved clock records taken lost place result }
{
    let mover = player_of(clock.turn);
    Clock {
        turn: other(mover),
        passes: 0,
        begun: 1,
        ko: ko_number(place),
        accepted: clock.accepted + 1,
        held: held_after(clock.held, mover, taken, lost),
        put: put_after(clock.put, mover),
        records,
        ..clock
    }
}

// A stone of the player to move, whatever the state and the bytes are. The game is held in the answer from the first line on, since a second place for the
// game would copy it once more.
pub fn stone(game: Game, history: &mut [u8], row: u8, column: u8) -> Answered
    ensures { Called (TrueState game × RoomIn game (length history.old)) (rules.stone (view_of game) history.old row column) game history.old result.answer result.game history.new }
{
    let mut answered = Answered {
        answer: DAMAGED,
        game,
    };
    if !judge_with(&answered.game, history.len()) {
        return answered;
    }
    let clock = clock_of(&answered.game);
    let mut colours = [EMPTY; MAX_AREA];
    let sight = look_at(&answered.game.board, &mut colours, 0, row, column);
    let granted = all_tested(
        &answered.game.board,
        sight,
        &colours,
        clock,
        history,
        row,
        column,
    );
    match granted {
        Err(refusal) => {
            answered.answer = refusal.number();
            answered
        }
        Ok(turn) => {
            let laid = lay(
                answered.game.board,
                turn.point,
                turn.mover,
                answered.game.flags,
            );
            let after = moved(clock, turn.records, laid.taken, laid.lost, laid.ko);
            answered.answer = ACCEPTED;
            answered.game = game_of(laid.board, after);
            answered
        }
    }
}
