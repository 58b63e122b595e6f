// The cost of a list of moves.
ghost use Rattle.std.specs.Prelude.{◌≡◌, length};
ghost use Rattle.measures.specs.Meanings.{Lawful, figures_of, meaning};
ghost use Rattle.measures.specs.Parts.{told};
ghost use Rattle.measures.specs.Totals.{Totalled, answered, heard};

use crate::measure::Measure;
use harmony::moves::Semitones;
use harmony::refusal::Refusal;

// The cost of these numbers, added in turn; every measure keeps its laws over such lists.
pub fn total<M: Measure>(measure: &M, numbers: &[Semitones]) -> M::Cost
    ensures total { Totalled (M.reading measure.now) numbers.now result }
    ensures laws { Lawful (meaning (M.reading measure.now)) }
{
    let mut cost = measure.start();
    for number in numbers {
        measure.add(&mut cost, *number);
    }
    cost
}

// Writes the figures of these numbers, added in turn, to the front of a line, and answers how many moves they are.
// The numbers are read and the line is written, and a caller has them apart, so they are two parameters here and wherever figures are told.
pub fn tell_total<M: Measure>(
    measure: &M,
    numbers: &[Semitones],
    line: &mut [u32],
) -> Result<u16, Refusal>
    ensures answer { result ≡ answered (M.reading measure.now).width (length line.old) numbers.now }
    ensures line { line.new ≡ told (M.reading measure.now).width (figures_of (meaning (M.reading measure.now)) (heard numbers.now)) line.old }
{
    let cost = total(measure, numbers);
    measure.tell(&cost, line)?;
    Ok(measure.count(&cost))
}
