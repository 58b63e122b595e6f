// What a weight of moves is, and the two weights of the house.
ghost use Rattle.std.specs.Prelude.{◌≡◌, ℕ, ◌*◌};
ghost use Rattle.harmony.specs.Moves.{Semitones};
ghost use Rattle.house.specs.Weights.{WeightLaws};
ghost use Rattle.std.proofs.Common.{rules};

use harmony::moves::Move;

// A weight gives each move a number; leaps weigh at least what their steps do.
pub trait Weight {
    // the letter of the measure that adds up these weights
    const LETTER: u8;

    ghost LETTER: { ℕ };

    ghost weigh: { Self → Semitones → ℕ };

    // The weight of a move.
    fn of(&self, by: Move) -> u16
        ensures { result ≡ weigh self.now by.semitones };

    ghost lawful: { (w : Self) → WeightLaws (weigh w) };
}

// The move itself.
#[derive(Clone, Copy, Debug, PartialEq, Eq, Hash)]
pub struct Plain;

// The square of the move.
#[derive(Clone, Copy, Debug, PartialEq, Eq, Hash)]
pub struct Squared;

impl Weight for Plain {
    const LETTER: u8 = b'S';

    ghost LETTER = { 83 };

    ghost weigh = { λ _ d. d };

    ghost lawful = { Prim.search rules };

    fn of(&self, by: Move) -> u16 {
        u16::from(by.semitones())
    }
}

impl Weight for Squared {
    const LETTER: u8 = b'Q';

    ghost LETTER = { 81 };

    ghost weigh = { λ _ d. d * d };

    ghost lawful = { Prim.search rules };

    fn of(&self, by: Move) -> u16 {
        let size = u16::from(by.semitones());
        size * size
    }
}
