// The measure that looks at the largest move alone. It is not strict: a lesser cost may become equal.
ghost use Rattle.house.specs.Largest.{largest};
ghost use Rattle.house.specs.LargestMoves.{largest_laws};

use harmony::moves::Move;
use harmony::refusal::Refusal;
use measures::content::held;
use measures::costs::Costs;
use measures::line::{left_behind, tell_figure};
use measures::measure::Measure;
use std::cmp::Ordering;

// The size of the largest move and a number of moves. Each measure has a record of its own, so that the fields say what they hold.
#[derive(Clone, Copy, Debug, PartialEq, Eq, Hash)]
pub struct LargestCost {
    pub size: u8,
    pub moves: u16,
}

// The largest move, 0 for none.
#[derive(Clone, Copy, Debug, PartialEq, Eq, Hash)]
pub struct Largest;

impl Costs for Largest {
    type Cost = LargestCost;

    ghost reading = { λ _. largest };

    fn start(&self) -> LargestCost {
        LargestCost { size: 0, moves: 0 }
    }

    fn push(&self, cost: &mut LargestCost, by: Move) {
        cost.size = cost.size.max(by.semitones());
        cost.moves = cost.moves.saturating_add(1);
    }

    fn count(&self, cost: &LargestCost) -> u16 {
        let could_be = if cost.moves == 0 {
            cost.size == 0
        } else {
            Move::new(cost.size).is_some()
        };
        held(could_be, cost.moves)
    }

    fn compare(&self, one: &LargestCost, other: &LargestCost) -> Ordering {
        one.size.cmp(&other.size)
    }

    fn fit(&self, length: usize) -> Result<usize, Refusal> {
        left_behind(1, length)
    }

    fn tell(&self, cost: &LargestCost, line: &mut [u32]) -> Result<usize, Refusal> {
        tell_figure(u32::from(cost.size), line)
    }
}

impl Measure for Largest {
    const LETTER: u8 = b'L';

    ghost LETTER = { 76 };

    ghost lawful = { λ m. largest_laws };
}
