// The pair of two measures, as a measure and as a strict one.
ghost use Rattle.std.specs.Prelude.{◌≡◌, length};
ghost use Rattle.measures.specs.Meanings.{StrictlyLawful, meaning};
ghost use Rattle.measures.specs.Pairs.{InTurn, both, figures_in_turn};
ghost use Rattle.measures.specs.Parts.{told};
ghost use Rattle.measures.specs.Totals.{answered, heard};
ghost use Rattle.measures.specs.PairsLemmas.{pair_laws, pair_strict_laws};

use crate::costs::Costs;
use crate::measure::Measure;
use crate::strict::StrictMeasure;
use crate::total::tell_total;
use harmony::moves::{Move, Semitones};
use harmony::refusal::Refusal;
use std::cmp::Ordering;

// The letter of a pair, as text has it.
pub const PAIR_LETTER: u8 = b'P';

// A cost of each half.
#[derive(Clone, Copy, Debug, PartialEq, Eq, Hash)]
pub struct PairCost<A, B> {
    pub first: A,
    pub second: B,
}

// The first measure, and the second where the first finds two costs equal.
#[derive(Clone, Copy, Debug, PartialEq, Eq, Hash)]
pub struct Pair<A, B> {
    pub first: A,
    pub second: B,
}

impl<A: StrictMeasure, B: Costs> Costs for Pair<A, B> {
    type Cost = PairCost<A::Cost, B::Cost>;

    ghost reading = { λ m. both (A.reading m.first) (B.reading m.second) };

    fn start(&self) -> PairCost<A::Cost, B::Cost> {
        PairCost {
            first: self.first.start(),
            second: self.second.start(),
        }
    }

    fn push(&self, cost: &mut PairCost<A::Cost, B::Cost>, by: Move) {
        self.first.push(&mut cost.first, by);
        self.second.push(&mut cost.second, by);
    }

    fn count(&self, cost: &PairCost<A::Cost, B::Cost>) -> u16 {
        self.first
            .count(&cost.first)
            .max(self.second.count(&cost.second))
    }

    fn compare(
        &self,
        one: &PairCost<A::Cost, B::Cost>,
        other: &PairCost<A::Cost, B::Cost>,
    ) -> Ordering {
        let by_first = self.first.compare(&one.first, &other.first);
        by_first.then_with(|| self.second.compare(&one.second, &other.second))
    }

    fn fit(&self, length: usize) -> Result<usize, Refusal> {
        self.second.fit(self.first.fit(length)?)
    }

    fn tell(&self, cost: &PairCost<A::Cost, B::Cost>, line: &mut [u32]) -> Result<usize, Refusal> {
        let behind = self.first.fit(line.len())?;
        self.second.fit(behind)?;
        self.first.tell(&cost.first, line)?;
        let from = line.len() - behind;
        self.second.tell(&cost.second, &mut line[from..])
    }
}

impl<A: StrictMeasure, B: Measure> Measure for Pair<A, B> {
    const LETTER: u8 = PAIR_LETTER;

    ghost LETTER = { 80 };

    ghost lawful = { λ m. pair_laws (A.reading m.first) (B.reading m.second) (A.lawful m.first) (B.lawful m.second) };
}

impl<A: StrictMeasure, B: StrictMeasure> StrictMeasure for Pair<A, B> {
    ghost lawful = { λ m. pair_strict_laws (A.reading m.first) (B.reading m.second) (A.lawful m.first) (B.lawful m.second) };
}

impl<A: StrictMeasure, B: Measure> Pair<A, B> {
    // Writes the figures of these numbers, added in turn: those of the first measure and then those of the second.
    pub fn tell_in_turn(&self, numbers: &[Semitones], line: &mut [u32]) -> Result<u16, Refusal>
        ensures answer { result ≡ answered (both (A.reading self.now.first) (B.reading self.now.second)).width (length line.old) numbers.now }
        ensures line { line.new ≡ told (both (A.reading self.now.first) (B.reading self.now.second)).width (figures_in_turn (A.reading self.now.first) (B.reading self.now.second) (heard numbers.now)) line.old }
        ensures turn { InTurn (A.reading self.now.first) (B.reading self.now.second) }
        ensures strict { StrictlyLawful (meaning (A.reading self.now.first)) }
    {
        tell_total(self, numbers, line)
    }
}
