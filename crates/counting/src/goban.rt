// What is asked of a whole board, by the names of the crate's goban.rs. A query that refuses gives 0 for every value. C reads what the queries
// give, so each is a struct with the answer's number, and no Result.
ghost use Rattle.std.specs.Prelude.{false, ◌≡◌};
ghost use Rattle.rules.specs.Chain as rules;
ghost use Rattle.board.specs.Board.{colours_of};
ghost use Rattle.board.specs.True.{TrueBoard};
ghost use Rattle.vetting.specs.Answered.{Answered};
ghost use Rattle.counting.specs.Goban.{no_size, size_of, no_hash, hash_of, no_stones, stones_of, no_chains, chains_of};

use board::goban::Board;
use board::judge::judged;
use points::answers::{ACCEPTED, DAMAGED};
use vetting::answers::answer_of;

#[repr(C)]
#[derive(Clone, Copy)]
pub struct SizeAnswer {
    pub answer: u8,
    pub height: u8,
    pub width: u8,
}

#[repr(C)]
#[derive(Clone, Copy)]
pub struct HashAnswer {
    pub answer: u8,
    pub hash: u64,
}

#[repr(C)]
#[derive(Clone, Copy)]
pub struct StonesAnswer {
    pub answer: u8,
    pub black: usize,
    pub white: usize,
}

#[repr(C)]
#[derive(Clone, Copy)]
pub struct ChainsAnswer {
    pub answer: u8,
    pub chains: usize,
}

pub fn size(board: Board) -> SizeAnswer
    ensures { Answered board false no_size (size_of board) result }
{
    if let Err(refusal) = answer_of(board) {
        return SizeAnswer {
            answer: refusal.number(),
            height: 0,
            width: 0,
        };
    }
    SizeAnswer {
        answer: ACCEPTED,
        height: board.height,
        width: board.width,
    }
}

pub fn zobrist_hash(board: Board) -> HashAnswer
    ensures { Answered board false no_hash (hash_of board) result }
{
    if let Err(refusal) = answer_of(board) {
        return HashAnswer {
            answer: refusal.number(),
            hash: 0,
        };
    }
    HashAnswer {
        answer: ACCEPTED,
        hash: board.hash,
    }
}

// The judge counts the stones on its way, so they are not counted again.
pub fn number_of_stones(board: Board) -> StonesAnswer
    ensures { Answered board false no_stones (stones_of board) result }
{
    match judged(&board) {
        None => StonesAnswer {
            answer: DAMAGED,
            black: 0,
            white: 0,
        },
        Some(stones) => StonesAnswer {
            answer: ACCEPTED,
            black: stones.black as usize,
            white: stones.white as usize,
        },
    }
}

fn count_chains(board: &Board) -> usize
    requires { TrueBoard board.now }
    ensures { result ≡ rules.chains board.now.height board.now.width (colours_of board.now) }
{
    board.chains.iter().filter(|chain| chain.count != 0).count()
}

pub fn number_of_chains(board: Board) -> ChainsAnswer
    ensures { Answered board false no_chains (chains_of board) result }
{
    if let Err(refusal) = answer_of(board) {
        return ChainsAnswer {
            answer: refusal.number(),
            chains: 0,
        };
    }
    ChainsAnswer {
        answer: ACCEPTED,
        chains: count_chains(&board),
    }
}
