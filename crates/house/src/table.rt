// The measure that counts the moves of each size, the widest first, as a measure and as a strict one.
ghost use Rattle.house.specs.Tables.{tabled};
ghost use Rattle.house.specs.TablesLemmas.{table_strict_laws};

use crate::table::cost::{TableCost, WIDTH};
use harmony::moves::Move;
use harmony::refusal::Refusal;
use measures::content::held;
use measures::costs::Costs;
use measures::line::left_behind;
use measures::measure::{MOST_MOVES, Measure};
use measures::strict::StrictMeasure;
use std::cmp::Ordering;

pub mod cost;

// How many moves there are of each size, the widest first.
#[derive(Clone, Copy, Debug, PartialEq, Eq, Hash)]
pub struct CountTable;

impl Costs for CountTable {
    type Cost = TableCost;

    ghost reading = { λ _. tabled };

    fn start(&self) -> TableCost {
        TableCost {
            counts: [0; WIDTH],
            moves: 0,
        }
    }

    fn push(&self, cost: &mut TableCost, by: Move) {
        let at = WIDTH - usize::from(by.semitones());
        // A move of 0 has no count. The contract of get_mut does not say what the counts then are.
        if let Some(count) = cost.counts.get(at) {
            cost.counts[at] = count.saturating_add(1);
        }
        cost.moves = cost.moves.saturating_add(1);
    }

    fn count(&self, cost: &TableCost) -> u16 {
        // the number first: of a full cost the counts say nothing more, and adding them up takes longest
        if cost.moves >= MOST_MOVES {
            return MOST_MOVES;
        }
        let counted: u32 = cost.counts.iter().map(|count| u32::from(*count)).sum();
        held(counted <= u32::from(cost.moves), cost.moves)
    }

    fn compare(&self, one: &TableCost, other: &TableCost) -> Ordering {
        one.counts.cmp(&other.counts)
    }

    fn fit(&self, length: usize) -> Result<usize, Refusal> {
        left_behind(WIDTH, length)
    }

    fn tell(&self, cost: &TableCost, line: &mut [u32]) -> Result<usize, Refusal> {
        let left = left_behind(WIDTH, line.len())?;
        // by index: `map` of an array makes an option of each count, and behind a zip with `iter_mut` nothing is known of what was written
        for (i, count) in cost.counts.iter().enumerate() {
            line[i] = u32::from(*count);
        }
        Ok(left)
    }
}

impl Measure for CountTable {
    const LETTER: u8 = b'M';

    ghost LETTER = { 77 };

    ghost lawful = { λ m. table_strict_laws.weak };
}

impl StrictMeasure for CountTable {
    ghost lawful = { λ m. table_strict_laws };
}
