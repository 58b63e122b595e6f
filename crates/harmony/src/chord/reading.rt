// The chord that a symbol names, in so many voices.
ghost use Rattle.std.specs.Prelude.{◌≡◌, ◌++◌, take, sum};
ghost use Rattle.harmony.specs.Chords.{harmony, tally};
ghost use Rattle.harmony.specs.Results.{result_map};
ghost use Rattle.harmony.specs.Symbols.{bass_of, chord_of, chord_with, classes_above, reading};

use crate::chord::Chord;
use crate::pitch::PitchClass;
use crate::quality::Tones;
use crate::refusal::Refusal;
use crate::symbol::Symbol;
use crate::voices::VoiceCount;

// How many voices sing each class, with the tones above a root.
fn counts(root: PitchClass, tones: Tones, voices: VoiceCount) -> [u8; 12]
    ensures is { result ≡ tally (classes_above root.index (take voices.number (tones.notes.now ++ tones.doubled.now))) }
    ensures all { sum result ≡ voices.number }
{
    let mut counts = [0; 12];
    for tone in tones
        .notes
        .iter()
        .chain(tones.doubled)
        .take(voices.number())
    {
        counts[usize::from(root.above(*tone).index())] += 1;
    }
    counts
}

impl Symbol {
    // The class of the lowest voice: the bass, or else the root.
    fn lowest(self) -> PitchClass
        ensures { result.index ≡ bass_of (reading self) }
    {
        self.bass.unwrap_or(self.root)
    }

    // The chord that the symbol names in so many voices, or why there is none.
    pub fn chord(self, voices: VoiceCount) -> Result<Chord, Refusal>
        ensures { result_map harmony result ≡ chord_with voices.number (reading self) }
    {
        let tones = self.quality.tones();
        if voices.number() < tones.notes.len() {
            return Err(Refusal::TooManyNotes);
        }
        let counts = counts(self.root, tones, voices);
        let bass = self.lowest();
        if counts[usize::from(bass.index())] == 0 {
            return Err(Refusal::ForeignBass);
        }
        Ok(Chord { counts, bass })
    }
}

impl Chord {
    // The chord that a symbol's text names in so many voices, or the first condition that it breaks; by name, as `Symbol::read`.
    pub fn read(symbol: &[u8], voices: VoiceCount) -> Result<Chord, Refusal>
        ensures { result_map harmony result ≡ chord_of symbol.now voices.number }
    {
        Symbol::read(symbol)?.chord(voices)
    }
}
