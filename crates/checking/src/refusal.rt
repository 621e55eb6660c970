// Which test refuses a stone: each is asked only where the flags forbid what it tests.
ghost use Rattle.std.specs.Prelude.{not, ◌&&◌, ◌≡◌};
ghost use Rattle.rules.specs.Lists.{any};
ghost use Rattle.rules.specs.Colours.{other};
ghost use Rattle.rules.specs.Flags as flag;
ghost use Rattle.rules.specs.Flags.{forbids};
ghost use Rattle.rules.specs.Tests.{eye};
ghost use Rattle.points.specs.Reason.{answer_of};
ghost use Rattle.legality.specs.Near.{besides, caught, catches_more, saves};
ghost use Rattle.checking.specs.Told.{first_refusal, told_as, told_of};

use crate::superko::{Leave, superko_told};
use eyes::eye::is_eye;
use legality::near::{Near, is_ko, is_suicide};
use points::answers::Refusal;
use points::flags::{Flag, forbids};
use points::sizes::MAX_AREA;

fn refuses_suicide(near: Near, colour: u8, flags: u8) -> bool
    ensures { result ≡ forbids flags flag.SUICIDE && not (any (saves colour) (besides near)) }
{
    forbids(flags, Flag::Suicide) && is_suicide(near, colour)
}

fn refuses_ko(near: Near, at_ko_point: bool, flags: u8) -> bool
    ensures { result ≡ forbids flags flag.KO && (at_ko_point && not (any catches_more (besides near))) }
{
    forbids(flags, Flag::Ko) && is_ko(near, at_ko_point)
}

fn refuses_eye(
    colours: &[u8; MAX_AREA],
    height: u8,
    width: u8,
    point: usize,
    colour: u8,
    flags: u8,
) -> bool
    ensures { result ≡ forbids flags flag.FILLEYE && eye height width colours.now colour point }
{
    forbids(flags, Flag::FillEye) && is_eye(colours, height, width, point, colour)
}

// The first of the three tests that refuses, in the order of 01.
fn first_refusal(suicide: bool, ko: bool, eye: bool) -> Result<(), Refusal>
    ensures { answer_of result ≡ first_refusal suicide ko eye }
{
    if suicide {
        return Err(Refusal::Suicide);
    }
    if ko {
        return Err(Refusal::Ko);
    }
    if eye {
        return Err(Refusal::FillEye);
    }
    Ok(())
}

// What the four tests tell of an empty point of the board.
pub fn told(
    near: Near,
    colours: &[u8; MAX_AREA],
    height: u8,
    width: u8,
    point: usize,
    colour: u8,
    at_ko_point: bool,
    records: usize,
    flags: u8,
) -> Result<Leave, Refusal>
    ensures { told_as result ≡ told_of flags (not (any (saves colour) (besides near))) (at_ko_point && not (any catches_more (besides near))) (eye height width colours.now colour point) (any (caught (other colour)) (besides near)) records }
{
    first_refusal(
        refuses_suicide(near, colour, flags),
        refuses_ko(near, at_ko_point, flags),
        refuses_eye(colours, height, width, point, colour, flags),
    )?;
    if !forbids(flags, Flag::SuperKo) {
        return Ok(Leave::Free);
    }
    superko_told(near, colour, at_ko_point, records)
}
