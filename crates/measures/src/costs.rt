// What moves cost.
ghost use Rattle.std.specs.Prelude.{◌≡◌, length};
ghost use Rattle.measures.specs.Figures.{order};
ghost use Rattle.measures.specs.Parts.{left, told};
ghost use Rattle.measures.specs.Readings.{Reading};

use harmony::moves::Move;
use harmony::refusal::Refusal;
use std::cmp::Ordering;

// Costs of moves, and what they mean. It is a value lent beside its costs, which are plain records of any content.
pub trait Costs {
    type Cost: Copy;

    // what the costs mean
    ghost reading: { Self → Reading Self.Cost };

    // The cost of no moves.
    fn start(&self) -> Self::Cost
        ensures { result ≡ (reading self.now).none };

    // Adds a move with no test of the room, for whoever knows that there is some.
    fn push(&self, cost: &mut Self::Cost, by: Move)
        ensures { cost.new ≡ (reading self.now).pushed cost.old by.semitones };

    // How many moves the cost holds.
    fn count(&self, cost: &Self::Cost) -> u16
        ensures { result ≡ (reading self.now).moves cost.now };

    // Which of two costs is the less.
    fn compare(&self, one: &Self::Cost, other: &Self::Cost) -> Ordering
        ensures { result ≡ order ((reading self.now).figures one.now) ((reading self.now).figures other.now) };

    // How many numbers a line of this length has left behind the figures.
    fn fit(&self, length: usize) -> Result<usize, Refusal>
        ensures { result ≡ left (reading self.now).width length };

    // Writes the figures to the front of a line, and answers what fit does.
    fn tell(&self, cost: &Self::Cost, line: &mut [u32]) -> Result<usize, Refusal>
        ensures answer { result ≡ left (reading self.now).width (length line.old) }
        ensures line { line.new ≡ told (reading self.now).width ((reading self.now).figures cost.now) line.old };
}
