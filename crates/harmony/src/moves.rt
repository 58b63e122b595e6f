// The move of a voice from one chord to the next.
ghost use Rattle.std.specs.Prelude.{◌≡◌, MatchOption};
ghost use Rattle.harmony.specs.Moves.{IsMove, move};

use crate::pitch::Pitch;

// The number that tells a move.
pub type Semitones = u8;

// A move, 0 to 24 semitones.
#[derive(Clone, Copy, Debug, PartialEq, Eq, PartialOrd, Ord, Hash)]
pub struct Move {
    semitones: Semitones,
    ghost bounded: { IsMove semitones },
}

impl Move {
    // The furthest move.
    pub const WIDEST: Move = Move { semitones: 24 };

    // The move of that many semitones; none for a number that is no move. A `const fn` for callers, beside which a `TryFrom` would say the same twice.
    pub const fn new(semitones: Semitones) -> Option<Move>
        ensures { MatchOption result (IsMove semitones → ⊥) (λ m. m.semitones ≡ semitones) }
    {
        if semitones <= 24 {
            Some(Move { semitones })
        } else {
            None
        }
    }

    // The move from a voice's pitch to its pitch at the next chord; none where that is no move.
    pub fn between(from: Pitch, to: Pitch) -> Option<Move>
        ensures { MatchOption result (IsMove (move from.semitones to.semitones) → ⊥) (λ m. m.semitones ≡ move from.semitones to.semitones) }
    {
        Move::new(from.semitones().abs_diff(to.semitones()))
    }

    pub const fn semitones(self) -> Semitones
        ensures { result ≡ self.semitones }
    {
        self.semitones
    }
}
