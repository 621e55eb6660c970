// A game by value. Every byte of `turn`, `outcome` and `begun` means something, so that a host can hand over any bytes at all.
ghost use Rattle.std.specs.Prelude.{◌≡◌};
ghost use Rattle.game.specs.View.{ko_of, outcome_of};

use board::goban::Board;
use chains::group::index;
use points::stones::{BLACK, WHITE};

// No ko point stands.
pub const NO_POINT: u16 = u16::MAX;

// A number for each player.
#[repr(C)]
#[derive(Clone, Copy)]
pub struct Tally {
    pub black: u32,
    pub white: u32,
}

#[repr(C)]
#[derive(Clone, Copy)]
pub struct Game {
    pub board: Board,
    pub flags: u8,
    // 2 is White; anything else is Black
    pub turn: u8,
    pub passes: u8,
    // the player that a resignation named, 1 Black or 2 White; anything else is none
    pub outcome: u8,
    // 0 is a game that has not begun
    pub begun: u8,
    // the ko point's index, or NO_POINT
    pub ko: u16,
    pub handicap: u16,
    // stones accepted, handicap not counted
    pub accepted: u16,
    // stones of each colour that are held prisoner
    pub held: Tally,
    // stones of each colour that were put down
    pub put: Tally,
    // how many records the history holds
    pub records: usize,
}

// The ko point that the number stands for.
pub(crate) fn ko_point(ko: u16) -> Option<usize>
    ensures { result ≡ ko_of ko }
{
    if ko == NO_POINT {
        return None;
    }
    Some(index(ko))
}

// The player whom the byte names.
#[tactic(auto, unfolding(crate::specs::View::outcome_of))]
pub(crate) fn outcome_of(byte: u8) -> Option<u8>
    ensures { result ≡ outcome_of byte }
{
    (byte == BLACK || byte == WHITE).then_some(byte)
}
