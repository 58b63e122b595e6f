// A row: one pitch a voice, ascending, within the ranges, with the chord's classes.
ghost use Rattle.std.specs.Prelude.{◌≡◌, ◌<◌, ◌≤◌, true, ◌++◌, map, length, drop, MatchResult};
ghost use Rattle.harmony.specs.Chords.{tally};
ghost use Rattle.harmony.specs.Pitches.{class};
ghost use Rattle.harmony.specs.Ranges.{bounds};
ghost use Rattle.harmony.specs.declared.refusal.Refusal.TheVariants.{ShortRowTable};
ghost use Rattle.rows.specs.Arrangements.{ascends, inside, semitones_of};

use harmony::chord::Chord;
use harmony::pitch::Pitch;
use harmony::range::Range;
use harmony::refusal::Refusal;

// The pitches are as many as the ranges; what stands behind them means nothing.
// An array, since the type is `Copy` for callers, as an `ArrayVec` is not.
#[derive(Clone, Copy, Debug)]
pub struct Row<'a> {
    pub(crate) ranges: &'a [Range],
    pub(crate) chord: &'a Chord,
    pub(crate) pitches: [Pitch; 6],
    ghost full: { length pitches ≡ 6 },
    ghost few: { length ranges.now ≤ 6 },
    ghost ranged: { inside (map bounds ranges.now) (semitones_of (length ranges.now) pitches) ≡ true },
    ghost ascending: { ascends (semitones_of (length ranges.now) pitches) ≡ true },
    ghost classes: { tally (map class (semitones_of (length ranges.now) pitches)) ≡ chord.now.counts },
}

impl Row<'_> {
    // Writes the pitches to the front of a part of a table, and answers how many; a shorter part is refused.
    pub fn write(&self, part: &mut [u8]) -> Result<usize, Refusal>
        ensures { MatchResult result (λ n. (n ≡ length self.now.ranges.now) × (n ≤ length part.old) × (part.new ≡ semitones_of n self.now.pitches ++ drop n part.old)) (λ e. (e ≡ ShortRowTable) × (length part.old < length self.now.ranges.now) × (part.new ≡ part.old)) }
    {
        let voices = self.ranges.len();
        if part.len() < voices {
            return Err(Refusal::ShortRowTable);
        }
        let semitones = self.pitches.map(|pitch| pitch.semitones());
        part[..voices].copy_from_slice(&semitones[..voices]);
        Ok(voices)
    }
}
