// The superko test. Only a capture brings a board back, so only there is the stone laid on a copy and the board looked for.
ghost use Rattle.std.specs.Prelude.{not, ◌&&◌, ◌≡◌, length};
ghost use Rattle.rules.specs.Lists.{any};
ghost use Rattle.rules.specs.Colours.{other};
ghost use Rattle.rules.specs.Records.{recorded};
ghost use Rattle.rules.specs.Calls.{resulting};
ghost use Rattle.legality.specs.Near.{besides, caught, catches_more};
ghost use Rattle.game.specs.View.{view_of};
ghost use Rattle.checking.specs.Told.{superko_told, told_as};
ghost use Rattle.checking.specs.Asking.{Repeating};

use game::calls::player_of;
use game::state::Game;
use history::lent::is_recorded;
use history::packing::record_by;
use laying::lay::lay;
use legality::near::{Near, is_ko, will_capture};
use looking::look::look_at;
use points::answers::Refusal;
use points::sizes::MAX_AREA;
use points::stones::EMPTY;

// What the tests that need no history leave of a stone: it is free, or only if the board that it leaves is new.
#[derive(Clone, Copy)]
pub enum Leave {
    Free,
    IfNew,
}

// The superko test, up to where the stone would have to be laid.
pub fn superko_told(
    near: Near,
    colour: u8,
    at_ko_point: bool,
    records: usize,
) -> Result<Leave, Refusal>
    ensures { told_as result ≡ superko_told (any (caught (other colour)) (besides near)) (at_ko_point && not (any catches_more (besides near))) records }
{
    if records <= 2 {
        return Ok(Leave::Free);
    }
    if !will_capture(near, colour) {
        return Ok(Leave::Free);
    }
    if is_ko(near, at_ko_point) {
        return Err(Refusal::SuperKo);
    }
    Ok(Leave::IfNew)
}

// The board that the stone would leave is among the records.
pub fn repeats(game: &Game, history: &[u8], point: usize) -> bool
    requires { Repeating game.now (length history.now) point }
    ensures { result ≡ recorded history.now game.now.records (resulting (view_of game.now) point) }
{
    let laid = lay(game.board, point, player_of(game.turn), game.flags);
    let mut left = [EMPTY; MAX_AREA];
    // what stands beside a point of it is not asked
    let sight = look_at(&laid.board, &mut left, 0, 0, 0);
    let bytes = record_by(sight.hash, &left);
    is_recorded(history, game.records, &bytes)
}
