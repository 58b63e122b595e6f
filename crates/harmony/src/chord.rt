// A chord: how many voices sing each pitch class, and which class is the lowest.
ghost use Rattle.std.specs.Prelude.{◌≡◌, ◌≤◌, length, sum, slice_index};

use crate::pitch::PitchClass;

mod reading;

// The counts add up to the number of voices, 3 to 6, and one voice at least sings the bass class.
#[derive(Clone, Copy, Debug, PartialEq, Eq, Hash)]
pub struct Chord {
    counts: [u8; 12],
    bass: PitchClass,
    ghost full: { length counts ≡ 12 },
    ghost fewest: { 3 ≤ sum counts },
    ghost most: { sum counts ≤ 6 },
    ghost sings: { 1 ≤ slice_index counts bass.index },
}

impl Chord {
    // How many voices sing each of the twelve classes.
    pub fn counts(&self) -> [u8; 12]
        ensures { result ≡ self.now.counts }
    {
        self.counts
    }

    // The class of the lowest pitch.
    pub fn bass(&self) -> PitchClass
        ensures { result ≡ self.now.bass }
    {
        self.bass
    }
}
