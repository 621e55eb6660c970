// What a reply says of a game: its facts, then the rows of its board.
ghost use Rattle.std.specs.Prelude.{◌≡◌, ◌+◌, ◌≤◌, ◌++◌, length};
ghost use Rattle.writing.specs.Figures.{spaced};
ghost use Rattle.stating.specs.State.{player, named};
ghost use Rattle.stating.specs.Said.{told, Stated};

use arrayvec::ArrayVec;
use drawing::draw::to_vec;
use game::asks::{Facts, facts_of};
use game::state::Game;
use points::answers::ACCEPTED;
use points::coord::area;
use points::sizes::MAX_AREA;
use points::stones::{EMPTY, WHITE};
use wording::replies::{DASH, SPACE, put_place, put_rows};
use writing::figures::{put_number, put_spaced};

// B or W.
#[tactic(auto, unfolding(crate::specs::State::player))]
fn player_sign(colour: u8) -> u8
    ensures { result ≡ player colour }
{
    if colour == WHITE { b'W' } else { b'B' }
}

#[tactic(auto, unfolding(writing::specs::Figures::spaced))]
fn put_outcome<const CAPACITY: usize>(out: &mut ArrayVec<u8, CAPACITY>, outcome: Option<u8>)
    requires { length out.old.items + 2 ≤ CAPACITY }
    ensures put { out.new.items ≡ out.old.items ++ spaced (named outcome) }
    ensures upper_bound { length out.new.items ≤ length out.old.items + 2 }
{
    out.push(SPACE);
    match outcome {
        None => out.push(DASH),
        Some(colour) => out.push(player_sign(colour)),
    }
}

// Turn, passes, prisoners, ko point, outcome and records.
#[tactic(auto, unfolding(crate::specs::Said::told, crate::specs::State::facts))]
fn put_facts<const CAPACITY: usize>(out: &mut ArrayVec<u8, CAPACITY>, facts: Facts)
    requires { length out.old.items + 130 ≤ CAPACITY }
    ensures put { out.new.items ≡ out.old.items ++ told facts }
    ensures upper_bound { length out.new.items ≤ length out.old.items + 130 }
{
    let held = facts.prisoners;
    out.push(player_sign(facts.turn));
    put_spaced(out, u64::from(facts.passes));
    put_spaced(out, u64::from(held.white));
    put_spaced(out, u64::from(held.black));
    put_place(out, facts.width, facts.ko);
    put_outcome(out, facts.outcome);
    put_spaced(out, facts.records as u64);
}

// The state of a game, or 3 where it is not true.
pub fn put_state<const CAPACITY: usize>(out: &mut ArrayVec<u8, CAPACITY>, game: Game)
    requires { length out.old.items + 1024 ≤ CAPACITY }
    ensures { Stated game out.old.items out.new.items }
{
    let facts = facts_of(game);
    if facts.answer != ACCEPTED {
        put_number(out, u64::from(facts.answer));
        return;
    }
    let board = game.board;
    let mut colours = [EMPTY; MAX_AREA];
    to_vec(board, &mut colours);
    put_facts(out, facts);
    out.push(SPACE);
    put_rows(
        out,
        board.width,
        &colours[..area(board.height, board.width)],
    );
}
