// Laying a stone, as the crate's `push` does: it is put as a chain of its own, joined with the chains of its colour beside it, the
// enemy's chains without liberty beside it are lifted, and then its own, where it has none and suicide is allowed. Each step is lent the
// board, so that it is copied once.
ghost use Rattle.std.specs.Prelude.{cond, not, ◌&&◌, ◌≡◌, eqb, Some, None};
ghost use Rattle.rules.specs.Flags as flag;
ghost use Rattle.rules.specs.Game.{Player};
ghost use Rattle.rules.specs.Points as rules;
ghost use Rattle.sets.specs.Liberties.{number};
ghost use Rattle.board.specs.True.{ExactTable};
ghost use Rattle.steps.specs.Putting.{Putting};
ghost use Rattle.steps.specs.Joining.{Joining};
ghost use Rattle.steps.specs.Steps as steps;
ghost use Rattle.laying.specs.Lay.{join_all, take_all};
ghost use Rattle.laying.specs.Laws.Gather.{Joinable};
ghost use Rattle.laying.specs.Laying.{Laying, LaidOut};

use board::goban::Board;
use chains::group::{Chain, free_chain, free_slot, index, new_chain};
use hashing::zobrist::stone_hash;
use owning::owners::owner_at;
use points::coord::sides;
use points::flags::{Flag, forbids};
use points::sizes::SLOTS;
use points::stones::other;
use sets::liberties::{any_liberty, empty_liberties};
use steps::join::{own, relink, unite};
use steps::put::{opened, without};
use steps::remove::remove_chain;

// The board after the stone, how many enemy and own stones were removed, and the ko point.
#[derive(Clone, Copy)]
pub struct Laid {
    pub board: Board,
    pub taken: u16,
    pub lost: u16,
    pub ko: Option<usize>,
}

// The chain in the slot beside the new stone is to be joined with that in the stone's own slot.
fn joins(chain: Chain, beside: usize, colour: u8, slot: usize) -> bool
    ensures { result ≡ eqb chain.colour colour && not (eqb beside slot) }
{
    chain.colour == colour && beside != slot
}

// The chain has no liberty.
fn is_dead(chain: Chain) -> bool
    ensures { result ≡ eqb (number chain.liberties) 0 }
{
    !any_liberty(chain.liberties)
}

// The chain is of the colour, and has no liberty.
fn is_captured(chain: Chain, colour: u8) -> bool
    ensures { result ≡ eqb chain.colour colour && eqb (number chain.liberties) 0 }
{
    chain.colour == colour && is_dead(chain)
}

// The ko point, if one stone was taken, is that stone's.
fn ko_point(taken: u16, point: usize) -> Option<usize>
    ensures { result ≡ cond (eqb taken 1) (Some point) None }
{
    if taken == 1 { Some(point) } else { None }
}

// The new stone's own chain is to be lifted: it has no liberty, and the flags allow suicide.
fn is_lost(chain: Chain, flags: u8) -> bool
    ensures { result ≡ not (flag.forbids flags flag.SUICIDE) && eqb (number chain.liberties) 0 }
{
    !forbids(flags, Flag::Suicide) && is_dead(chain)
}

// Puts the stone on an empty point, as a chain of its own in the free slot.
fn put(board: &mut Board, point: usize, colour: u8, slot: usize)
    requires { Putting board.old point colour slot }
    ensures { board.new ≡ steps.put board.old point colour slot }
{
    let mut stone = new_chain(colour, point as u16, empty_liberties());
    for side in sides(board.height, board.width, point) {
        if let Some(beside) = side {
            let owner = owner_at(&board.owners, beside);
            stone = opened(stone, owner, beside);
            if owner < SLOTS {
                board.chains[owner] = without(board.chains[owner], point);
            }
        }
    }
    board.owners[point] = slot as u16;
    board.next[point] = point as u16;
    board.hash ^= stone_hash(point, colour);
    board.chains[slot] = stone;
}

// The chain of the one slot goes over to that of the other.
fn join(board: &mut Board, to: usize, from: usize)
    requires { Joining board.old to from }
    ensures { board.new ≡ steps.join board.old to from }
{
    let a = board.chains[to];
    let b = board.chains[from];
    own(&mut board.owners, &board.next, b, to);
    relink(&mut board.next, a, b);
    board.chains[from] = free_chain();
    board.chains[to] = unite(a, b);
}

// Joins the stone's chain with each chain of its colour beside it. Answers the slot that it is in then.
fn join_beside(board: &mut Board, point: usize, colour: u8, slot: usize) -> usize
    requires { Joinable board.old point colour slot }
    ensures { join_all colour (rules.neighbours board.old.height board.old.width point) board.old slot ≡ record { board = board.new; slot = result } }
{
    let mut mine = slot;
    for side in sides(board.height, board.width, point) {
        if let Some(beside) = side {
            let owner = owner_at(&board.owners, beside);
            if owner < SLOTS && joins(board.chains[owner], owner, colour, mine) {
                join(board, owner, mine);
                mine = owner;
            }
        }
    }
    mine
}

// Lifts the enemy's chains without liberty beside the stone. Answers how many stones they had, and a point of the last.
fn take_beside(board: &mut Board, point: usize, enemy: u8) -> (u16, usize)
    requires table { ExactTable board.old }
    requires player { Player enemy }
    ensures { take_all enemy (rules.neighbours board.old.height board.old.width point) (record { board = board.old; stones = 0; point = 0 }) ≡ record { board = board.new; stones = result.0; point = result.1 } }
{
    let mut taken = 0;
    let mut prisoner = 0;
    for side in sides(board.height, board.width, point) {
        if let Some(beside) = side {
            let owner = owner_at(&board.owners, beside);
            if owner < SLOTS {
                let chain = board.chains[owner];
                if is_captured(chain, enemy) {
                    remove_chain(board, owner);
                    taken += chain.count;
                    prisoner = index(chain.origin);
                }
            }
        }
    }
    (taken, prisoner)
}

// A stone of this colour on the point.
pub fn lay(mut board: Board, point: usize, colour: u8, flags: u8) -> Laid
    requires { Laying board point colour flags }
    ensures { LaidOut board point colour flags result }
{
    let free = free_slot(&board.chains).unwrap();
    put(&mut board, point, colour, free);
    let slot = join_beside(&mut board, point, colour, free);
    let enemy = other(colour);
    let (taken, prisoner) = take_beside(&mut board, point, enemy);
    let chain = board.chains[slot];
    let mut lost = 0;
    if is_lost(chain, flags) {
        remove_chain(&mut board, slot);
        lost = chain.count;
    }
    Laid {
        board,
        taken,
        lost,
        ko: ko_point(taken, prisoner),
    }
}
