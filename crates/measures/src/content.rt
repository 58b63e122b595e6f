// What a content of a cost stands for.
ghost use Rattle.std.specs.Prelude.{◌≡◌};
ghost use Rattle.measures.specs.Readings.{held};

use crate::measure::MOST_MOVES;

// The number of moves that a content names, or 378 where moves could not have made it, so that it takes no more. The test and the number come apart, as in the definition: each measure has a test of its own.
pub fn held(could_be: bool, moves: u16) -> u16
    ensures { result ≡ held could_be moves }
{
    if moves < MOST_MOVES && could_be {
        moves
    } else {
        MOST_MOVES
    }
}
