// What a measure of movement is.
ghost use Rattle.std.specs.Prelude.{◌≡◌, ℕ};
ghost use Rattle.measures.specs.Laws.{Laws};
ghost use Rattle.measures.specs.Parts.{added};

use crate::costs::Costs;
use harmony::moves::{Move, Semitones};

// The most moves that a cost may hold: six voices between 64 chords.
pub const MOST_MOVES: u16 = 378;

// A measure turns moves into costs that keep the laws.
pub trait Measure: Costs {
    // the measure's letter, as text has it
    const LETTER: u8;

    ghost LETTER: { ℕ };

    // Adds a number: a cost that holds 378 moves, or a number that is no move, leaves the cost as it was.
    fn add(&self, cost: &mut Self::Cost, number: Semitones)
        ensures { cost.new ≡ added (Self.reading self.now) cost.old number }
    {
        if let Some(by) = Move::new(number) {
            if self.count(cost) < MOST_MOVES {
                self.push(cost, by);
            }
        }
    }

    ghost lawful: { (m : Self) → Laws (Self.reading m) };
}
