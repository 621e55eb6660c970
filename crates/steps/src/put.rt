// A stone is put on an empty point as a chain of its own, and the chains beside it lose that liberty: the first step of the crate's
// `push`.
ghost use Rattle.std.specs.Prelude.{cond, ◌≡◌, eqb};
ghost use Rattle.rules.specs.Sizes.{slots};
ghost use Rattle.steps.specs.Steps.{loses, gains};

use crate::remove::gain;
use chains::group::Chain;
use points::sizes::SLOTS;
use sets::liberties::remove_liberty;

// The chain without the liberty.
#[tactic(auto, unfolding(crate::specs::Steps::loses))]
pub fn without(chain: Chain, point: usize) -> Chain
    ensures { result ≡ loses point chain }
{
    let liberties = remove_liberty(chain.liberties, point);
    Chain { liberties, ..chain }
}

// The chain with the point as a liberty, if no chain owns it.
pub fn opened(chain: Chain, owner: usize, point: usize) -> Chain
    ensures { result ≡ cond (eqb owner slots) (gains point chain) chain }
{
    if owner == SLOTS {
        gain(chain, point)
    } else {
        chain
    }
}
