// The measure that adds up weights of moves, as a measure and as a strict one.
ghost use Rattle.house.specs.Weights.{weighed};
ghost use Rattle.house.specs.WeightsLemmas.{weighed_strict_laws};

use crate::weight::{Plain, Squared, Weight};
use harmony::moves::Move;
use harmony::refusal::Refusal;
use measures::content::held;
use measures::costs::Costs;
use measures::line::{left_behind, tell_figure};
use measures::measure::{MOST_MOVES, Measure};
use measures::strict::StrictMeasure;
use std::cmp::Ordering;

// A sum of weights and a number of moves. Each measure has a record of its own, so that the fields say what they hold.
#[derive(Clone, Copy, Debug, PartialEq, Eq, Hash)]
pub struct SumCost {
    pub sum: u32,
    pub moves: u16,
}

// The sum of the weights of the moves.
#[derive(Clone, Copy, Debug, PartialEq, Eq, Hash)]
pub struct Weighed<W> {
    pub weight: W,
}

// The sum of the moves.
pub type Sum = Weighed<Plain>;

pub const SUM: Sum = Weighed { weight: Plain };

// The sum of the squares of the moves.
pub type Squares = Weighed<Squared>;

pub const SQUARES: Squares = Weighed { weight: Squared };

impl<W: Weight> Costs for Weighed<W> {
    type Cost = SumCost;

    ghost reading = { λ m. weighed (W.weigh m.weight) };

    fn start(&self) -> SumCost {
        SumCost { sum: 0, moves: 0 }
    }

    fn push(&self, cost: &mut SumCost, by: Move) {
        cost.sum = cost.sum.saturating_add(u32::from(self.weight.of(by)));
        cost.moves = cost.moves.saturating_add(1);
    }

    fn count(&self, cost: &SumCost) -> u16 {
        // the number first: of a full cost the sum says nothing more
        if cost.moves >= MOST_MOVES {
            return MOST_MOVES;
        }
        let widest = u32::from(self.weight.of(Move::WIDEST));
        held(cost.sum <= widest * u32::from(cost.moves), cost.moves)
    }

    fn compare(&self, one: &SumCost, other: &SumCost) -> Ordering {
        one.sum.cmp(&other.sum)
    }

    fn fit(&self, length: usize) -> Result<usize, Refusal> {
        left_behind(1, length)
    }

    fn tell(&self, cost: &SumCost, line: &mut [u32]) -> Result<usize, Refusal> {
        tell_figure(cost.sum, line)
    }
}

impl<W: Weight> Measure for Weighed<W> {
    const LETTER: u8 = W::LETTER;

    ghost LETTER = { W.LETTER };

    ghost lawful = { λ m. (weighed_strict_laws (W.weigh m.weight) (W.lawful m.weight)).weak };
}

impl<W: Weight> StrictMeasure for Weighed<W> {
    ghost lawful = { λ m. weighed_strict_laws (W.weigh m.weight) (W.lawful m.weight) };
}
