// The measures that a text names by a letter.
ghost use Rattle.std.specs.Prelude.{◌≡◌, Some, [], ◌∷◌, codes, length};
ghost use Rattle.house.specs.Letters.{Meant, Named, figures_by, letter_of, width_by};
ghost use Rattle.measures.specs.Parts.{told};
ghost use Rattle.measures.specs.Totals.{answered, heard};

use crate::largest::Largest;
use crate::table::CountTable;
use crate::table::cost::WIDTH;
use crate::weighed::{SQUARES, SUM, Squares, Sum};
use harmony::moves::Semitones;
use harmony::refusal::Refusal;
use measures::measure::Measure;
use measures::pair::Pair;
use measures::total::tell_total;
use std::error::Error;
use std::fmt;

// The pair that the letter P means in text.
pub type SumThenLargest = Pair<Sum, Largest>;

pub const SUM_THEN_LARGEST: SumThenLargest = Pair {
    first: SUM,
    second: Largest,
};

// A measure of the house, by what it measures.
#[derive(Clone, Copy, Debug, PartialEq, Eq, Hash)]
pub enum HouseMeasure {
    // the sum of the moves
    Sum,
    // the sum of their squares
    Squares,
    // the largest move
    Largest,
    // how many moves there are of each size, the widest first
    Table,
    // the sum of the moves, and of equal sums the largest move
    SumThenLargest,
}

// The letter of the measure.
impl fmt::Display for HouseMeasure {
    ghost output = { λ h. Some (letter_of h ∷ []) };

    fn fmt<W: fmt::Write>(&self, f: &mut fmt::Formatter<W>) -> fmt::Result {
        f.write_char(char::from(self.letter()))
    }
}

// A letter that no measure has.
#[derive(Clone, Copy, Debug, PartialEq, Eq, Hash)]
pub struct UnknownLetter;

impl fmt::Display for UnknownLetter {
    ghost output = { λ _. Some (codes "no measure has this letter") };

    fn fmt<W: fmt::Write>(&self, f: &mut fmt::Formatter<W>) -> fmt::Result {
        f.write_str("no measure has this letter")
    }
}

impl Error for UnknownLetter {}

// The measure with this letter.
impl TryFrom<u8> for HouseMeasure {
    type Error = UnknownLetter;

    ghost try_from_gives = { Named };

    fn try_from(letter: u8) -> Result<Self, UnknownLetter> {
        match letter {
            b'S' => Ok(HouseMeasure::Sum),
            b'Q' => Ok(HouseMeasure::Squares),
            b'L' => Ok(HouseMeasure::Largest),
            b'M' => Ok(HouseMeasure::Table),
            b'P' => Ok(HouseMeasure::SumThenLargest),
            _ => Err(UnknownLetter),
        }
    }
}

impl HouseMeasure {
    // The letter, by name, since a conversion into u8 would not say which number of a measure it is.
    pub fn letter(self) -> u8
        ensures { result ≡ letter_of self }
    {
        match self {
            HouseMeasure::Sum => Sum::LETTER,
            HouseMeasure::Squares => Squares::LETTER,
            HouseMeasure::Largest => Largest::LETTER,
            HouseMeasure::Table => CountTable::LETTER,
            HouseMeasure::SumThenLargest => SumThenLargest::LETTER,
        }
    }

    // How many figures a cost has.
    pub fn width(self) -> usize
        ensures { result ≡ width_by self }
    {
        match self {
            HouseMeasure::Sum | HouseMeasure::Squares | HouseMeasure::Largest => 1,
            HouseMeasure::Table => WIDTH,
            HouseMeasure::SumThenLargest => 2,
        }
    }

    // Writes the figures of these numbers, added in turn, to the front of a line, and answers how many moves they are.
    #[tactic(auto, using(crate::proofs::Letters::all_meant))]
    pub fn tell(self, numbers: &[Semitones], line: &mut [u32]) -> Result<u16, Refusal>
        ensures answer { result ≡ answered (width_by self) (length line.old) numbers.now }
        ensures line { line.new ≡ told (width_by self) (figures_by self (heard numbers.now)) line.old }
        ensures meant { Meant self }
    {
        // Five known kinds by a match: a dyn would want a trait of its own for them, and be no plainer.
        match self {
            HouseMeasure::Sum => tell_total(&SUM, numbers, line),
            HouseMeasure::Squares => tell_total(&SQUARES, numbers, line),
            HouseMeasure::Largest => tell_total(&Largest, numbers, line),
            HouseMeasure::Table => tell_total(&CountTable, numbers, line),
            HouseMeasure::SumThenLargest => tell_total(&SUM_THEN_LARGEST, numbers, line),
        }
    }
}
