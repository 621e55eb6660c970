// The tests that ask of the chains beside a point: suicide, ko and capture, after the crate's game.rs. They are asked of a small
// struct, so that the board is read once for all of them.
ghost use Rattle.std.specs.Prelude.{not, ◌&&◌, ◌≡◌};
ghost use Rattle.rules.specs.Lists.{any};
ghost use Rattle.rules.specs.Colours as colours;
ghost use Rattle.legality.specs.Near.{besides, caught, catches_more, saves};

use points::stones::{EMPTY, other};

// What stands at a point: its colour, and the liberties and stones of the chain there, 0 at an empty point.
#[derive(Clone, Copy)]
pub struct Beside {
    pub colour: u8,
    pub liberties: u16,
    pub stones: u16,
}

// What stands on the four sides of a point, in the order of the sides; on a side that is off the board there is nothing.
#[derive(Clone, Copy)]
pub struct Near {
    pub sides: [Option<Beside>; 4],
}

// A chain of this colour with one liberty.
#[tactic(auto, unfolding(crate::specs::Near::caught))]
fn is_caught(beside: Beside, colour: u8) -> bool
    ensures { result ≡ caught colour beside }
{
    beside.colour == colour && beside.liberties == 1
}

// A chain of either colour with one liberty and more than one stone.
#[tactic(auto, unfolding(crate::specs::Near::catches_more))]
fn catches_more(chain: Beside) -> bool
    ensures { result ≡ catches_more chain }
{
    chain.colour != EMPTY && chain.liberties == 1 && 1 < chain.stones
}

// What keeps a stone of this colour alive: an empty point, an own chain that has another liberty, an enemy chain that is captured.
#[tactic(auto, unfolding(crate::specs::Near::saves, crate::specs::Near::caught))]
fn is_saved(beside: Beside, colour: u8) -> bool
    ensures { result ≡ saves colour beside }
{
    if beside.colour == EMPTY {
        return true;
    }
    if beside.colour == colour {
        return beside.liberties != 1;
    }
    is_caught(beside, other(colour))
}

// Something beside the point keeps a stone of this colour alive.
#[tactic(auto, unfolding(crate::specs::Near::besides))]
fn stays(near: Near, colour: u8) -> bool
    ensures { result ≡ any (saves colour) (besides near) }
{
    near.sides
        .iter()
        .filter_map(|side| *side)
        .any(|beside| is_saved(beside, colour))
}

// Some chain beside the point has one liberty and more than one stone.
#[tactic(auto, unfolding(crate::specs::Near::besides))]
fn takes_more(near: Near) -> bool
    ensures { result ≡ any catches_more (besides near) }
{
    near.sides
        .iter()
        .filter_map(|side| *side)
        .any(|beside| catches_more(beside))
}

// A stone of this colour at the point would have no liberty, and capture nothing.
pub fn is_suicide(near: Near, colour: u8) -> bool
    ensures { result ≡ not (any (saves colour) (besides near)) }
{
    !stays(near, colour)
}

// The point is the ko point, and no chain beside it has one liberty and more than one stone.
pub fn is_ko(near: Near, at_ko_point: bool) -> bool
    ensures { result ≡ at_ko_point && not (any catches_more (besides near)) }
{
    at_ko_point && !takes_more(near)
}

// A stone of this colour at the point takes the last liberty of an enemy chain.
#[tactic(auto, unfolding(crate::specs::Near::besides))]
pub fn will_capture(near: Near, colour: u8) -> bool
    ensures { result ≡ any (caught (colours.other colour)) (besides near) }
{
    let enemy = other(colour);
    near.sides
        .iter()
        .filter_map(|side| *side)
        .any(|beside| is_caught(beside, enemy))
}
