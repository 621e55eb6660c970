// The colours of a point, by the numbers that 01 gives them.
ghost use Rattle.std.specs.Prelude.{◌≡◌};
ghost use Rattle.rules.specs.Colours as colours;

use crate::sizes::MAX_AREA;

pub const EMPTY: u8 = 0;

pub const BLACK: u8 = 1;

pub const WHITE: u8 = 2;

// The opponent's colour. A number that names no player has Black for its opponent, as in the definition.
pub fn other(colour: u8) -> u8
    ensures { result ≡ colours.other colour }
{
    if colour == BLACK { WHITE } else { BLACK }
}

// The colour of a point among those of the largest board's; beyond them nothing stands.
pub fn colour_at(shown: &[u8; MAX_AREA], point: usize) -> u8
    ensures { result ≡ colours.at shown.now point }
{
    if MAX_AREA <= point {
        return EMPTY;
    }
    shown[point]
}
