// The rows of a chord, counted and written to the front of a part of a table of bytes.
// Voices and chord are lent apart, here and in `progression`: callers keep the voices while chords come and go.
ghost use Rattle.std.specs.Prelude.{◌≡◌, ◌*◌, ◌<◌, ◌≤◌, [], ◌∷◌, ◌++◌, length, drop, Ok};
ghost use Rattle.harmony.specs.Chords.{harmony};
ghost use Rattle.harmony.specs.VoiceRanges.{ranges_of};
ghost use Rattle.rows.specs.Enumeration.{Meant};
ghost use Rattle.rows.specs.Tables.{counted, flat, rows_for, with_room, written};

use crate::search::find;
use harmony::chord::Chord;
use harmony::refusal::Refusal;
use harmony::voices::Voices;

// How many rows a chord has, or why it is refused.
pub fn count(voices: &Voices, chord: &Chord) -> Result<usize, Refusal>
    ensures answer { result ≡ counted (rows_for voices.now chord.now ∷ []) }
    ensures meaning { Meant (ranges_of voices.now) (harmony chord.now) }
{
    let rows = find(voices, chord, &mut [])?;
    if rows == 0 {
        return Err(Refusal::NoRow);
    }
    Ok(rows)
}

// Writes the rows of a chord, in order, to the front of a part of a row table, and answers how many they are.
pub fn write(voices: &Voices, chord: &Chord, part: &mut [u8]) -> Result<usize, Refusal>
    ensures answer { result ≡ with_room voices.now.count.number (length part.old) (counted (rows_for voices.now chord.now ∷ [])) }
    ensures table { part.new ≡ written voices.now.count.number (rows_for voices.now chord.now) part.old result }
    ensures meaning { Meant (ranges_of voices.now) (harmony chord.now) }
{
    let rows = count(voices, chord)?;
    if part.len() < rows * voices.count().number() {
        return Err(Refusal::ShortRowTable);
    }
    find(voices, chord, part)
}
