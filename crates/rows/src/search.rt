// The search for the rows of a chord: from the lowest voice upward, until the voices are used up.
ghost use Rattle.std.specs.Prelude.{◌≡◌, ◌≤◌, map, length};
ghost use Rattle.harmony.specs.Chords.{harmony};
ghost use Rattle.harmony.specs.Ranges.{bounds};
ghost use Rattle.harmony.specs.Results.{result_map};
ghost use Rattle.harmony.specs.VoiceRanges.{ranges_of};
ghost use Rattle.rows.specs.Enumeration.{Meant};
ghost use Rattle.rows.specs.Growth.{Completed};
ghost use Rattle.rows.specs.Searches.{Sought, rows_beyond};
ghost use Rattle.rows.specs.Tables.{rows_for};

use crate::climb::Climb;
use crate::found::Found;
use crate::row::Row;
use harmony::chord::Chord;
use harmony::range::Range;
use harmony::refusal::Refusal;
use harmony::voices::Voices;

// What rows are sought for: the ranges of the voices, and the chord.
#[derive(Clone, Copy, Debug)]
struct Search<'a> {
    ranges: &'a [Range],
    chord: &'a Chord,
    ghost few: { length ranges.now ≤ 6 },
}

impl Search<'_> {
    // The one row that a climb to the top has come to, where every count is used up.
    fn finish(&self, climb: Climb, found: &mut Found) -> Result<(), Refusal>
        requires top { climb.voices ≡ length self.now.ranges.now }
        requires sought { Sought (map bounds self.now.ranges.now) (harmony self.now.chord.now) (rows_beyond (map bounds self.now.ranges.now) climb) }
        ensures same { found.new.table.ghost_name ≡ found.old.table.ghost_name }
        ensures found { Completed (length self.now.ranges.now) found.old.rows (rows_beyond (map bounds self.now.ranges.now) climb) found.old.table.now found.new.table.now (result_map (λ _. found.new.rows) result) }
    {
        if !climb.is_sung() {
            return Ok(());
        }
        let pitches = climb.pitches;
        let row = Row {
            ranges: self.ranges,
            chord: self.chord,
            pitches,
        };
        found.push(&row)
    }

    // All rows that begin with the pitches of a climb, in order, behind the rows that came before; past the most rows it stops.
    fn complete(&self, climb: Climb, found: &mut Found) -> Result<(), Refusal>
        requires under { climb.voices ≤ length self.now.ranges.now }
        requires sought { Sought (map bounds self.now.ranges.now) (harmony self.now.chord.now) (rows_beyond (map bounds self.now.ranges.now) climb) }
        ensures same { found.new.table.ghost_name ≡ found.old.table.ghost_name }
        ensures found { Completed (length self.now.ranges.now) found.old.rows (rows_beyond (map bounds self.now.ranges.now) climb) found.old.table.now found.new.table.now (result_map (λ _. found.new.rows) result) }
    {
        let Some(range) = self.ranges.get(climb.voices) else {
            return self.finish(climb, found);
        };
        for semitones in range.low.semitones()..range.high.semitones() + 1 {
            if let Some(next) = climb.with(semitones) {
                self.complete(next, found)?;
            }
        }
        Ok(())
    }
}

// All rows of a chord, put into the table as far as there is room for them, and how many they are. What they mean is said here once for `count` and `write`, which promise it.
pub(crate) fn find(voices: &Voices, chord: &Chord, table: &mut [u8]) -> Result<usize, Refusal>
    ensures found { Completed voices.now.count.number 0 (rows_for voices.now chord.now) table.old table.new result }
    ensures meaning { Meant (ranges_of voices.now) (harmony chord.now) }
{
    let search = Search {
        ranges: voices.ranges(),
        chord,
    };
    let mut found = Found { table, rows: 0 };
    search.complete(Climb::start(chord), &mut found)?;
    Ok(found.rows)
}
