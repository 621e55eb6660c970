// What can be asked of a board that a list of points answers, and the test that tells which points are in the list.
ghost use Rattle.std.specs.Prelude.{◌≡◌, true, eqb, get_or};
ghost use Rattle.rules.specs.Lists.{any};
ghost use Rattle.rules.specs.Points.{neighbours};
ghost use Rattle.viewing.specs.Seen.{meets, near, passed};

use crate::view::View;
use points::coord::{sides, two_to_1dim};
use points::sizes::MAX_AREA;
use points::stones::{EMPTY, colour_at};

// What is asked at a point: its chain's stones or liberties, the points, stones or empty points beside it, or the chains beside it.
#[derive(Clone, Copy)]
pub enum Local {
    Chain,
    Liberties,
    Points,
    Stones,
    Empties,
    Chains,
}

// What is asked: the stones, the points of a colour, or something at a row and a column.
#[derive(Clone, Copy)]
pub enum Question {
    Stones,
    Coloured(u8),
    At(u8, u8, Local),
}

// The least point of the chain at a point.
fn lead_at(leads: &[u16; MAX_AREA], point: usize) -> usize
    ensures { result ≡ get_or leads.now point 0 }
{
    if MAX_AREA <= point {
        return 0;
    }
    usize::from(leads[point])
}

// The point q lies beside p.
#[tactic(auto, unfolding(rules::specs::Points::neighbours))]
fn is_beside(height: u8, width: u8, p: usize, q: usize) -> bool
    ensures { result ≡ any (λ r. eqb q r) (neighbours height width p) }
{
    sides(height, width, p)
        .iter()
        .filter_map(|side| *side)
        .any(|r| q == r)
}

// A stone of the chain with this least point lies beside p.
#[tactic(auto, unfolding(rules::specs::Points::neighbours, crate::specs::Seen::meets, crate::specs::Seen::key_of))]
fn is_beside_chain(leads: &[u16; MAX_AREA], height: u8, width: u8, p: usize, lead: usize) -> bool
    ensures { result ≡ meets height width leads.now true p lead }
{
    sides(height, width, p)
        .iter()
        .filter_map(|side| *side)
        .any(|r| lead == lead_at(leads, r))
}

// The point q is in the list that is asked at the point p.
#[tactic(auto, unfolding(crate::specs::Seen::meets, crate::specs::Seen::key_of))]
fn near_shows(view: &View, height: u8, width: u8, p: usize, local: Local, q: usize) -> bool
    ensures { result ≡ near height width view.now.colours view.now.leads p local q }
{
    let colours = &view.colours;
    let leads = &view.leads;
    match local {
        Local::Chain => colour_at(colours, p) != EMPTY && lead_at(leads, p) == lead_at(leads, q),
        Local::Liberties => {
            colour_at(colours, p) != EMPTY
                && (colour_at(colours, q) == EMPTY
                    && is_beside_chain(leads, height, width, q, lead_at(leads, p)))
        }
        Local::Points => is_beside(height, width, p, q),
        Local::Stones => colour_at(colours, q) != EMPTY && is_beside(height, width, p, q),
        Local::Empties => colour_at(colours, q) == EMPTY && is_beside(height, width, p, q),
        Local::Chains => lead_at(leads, q) == q && is_beside_chain(leads, height, width, p, q),
    }
}

// The point q is in the list.
pub fn shows(view: &View, height: u8, width: u8, question: Question, q: usize) -> bool
    ensures { result ≡ passed height width view.now.colours view.now.leads question q }
{
    match question {
        Question::Stones => colour_at(&view.colours, q) != EMPTY,
        Question::Coloured(colour) => colour_at(&view.colours, q) == colour,
        Question::At(row, column, local) => {
            near_shows(
                view,
                height,
                width,
                two_to_1dim(width, row, column),
                local,
                q,
            )
        }
    }
}
