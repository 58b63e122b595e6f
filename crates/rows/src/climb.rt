// A row in the making: the pitches of the voices below, and what is left for those above.
ghost use Rattle.std.specs.Prelude.{◌≡◌, ◌+◌, ◌<◌, ◌≤◌, true, false, [], ◌∷◌, ◌++◌, length, MatchOption};
ghost use Rattle.harmony.specs.Pitches.{class};
ghost use Rattle.rows.specs.Arrangements.{semitones_of};
ghost use Rattle.rows.specs.Enumeration.{above, all_zero, bass, less, may, stands};
ghost use Rattle.rows.specs.Growth.{footing_of};

use harmony::chord::Chord;
use harmony::pitch::{Pitch, PitchClass};

// What a voice stands on: the lowest one on the bass class, any other on the pitch of the voice below.
#[derive(Clone, Copy, Debug, PartialEq, Eq)]
pub(crate) enum Footing {
    Bass(PitchClass),
    Above(Pitch),
}

// The pitches sung so far, and what of the chord's counts is left to sing.
// An array with its number beside it: a climb is copied at each step, where an `ArrayVec` would be cloned.
#[derive(Clone, Copy, Debug)]
pub(crate) struct Climb {
    pub(crate) pitches: [Pitch; 6],
    pub(crate) voices: usize,
    pub(crate) footing: Footing,
    pub(crate) left: [u8; 12],
}

impl Footing {
    // Whether a voice may have this pitch above it.
    pub(crate) fn bears(self, pitch: Pitch) -> bool
        ensures { result ≡ stands (footing_of self) pitch.semitones }
    {
        match self {
            Footing::Bass(class) => pitch.class() == class,
            Footing::Above(lower) => lower <= pitch,
        }
    }
}

impl Climb {
    // No voice has sung yet.
    pub(crate) fn start(chord: &Chord) -> Climb
        ensures { (result.voices ≡ 0) × (footing_of result.footing ≡ bass chord.now.bass.index) × (result.left ≡ chord.now.counts) }
    {
        let pitches = [Pitch::MIDDLE_C; 6];
        let left = chord.counts();
        Climb {
            pitches,
            voices: 0,
            footing: Footing::Bass(chord.bass()),
            left,
        }
    }

    // The climb with this pitch for the next voice, where its footing bears it and its class is still to be sung.
    // It is lent: most pitches are refused, and a climb passed by value would be copied for each.
    pub(crate) fn with(&self, semitones: u8) -> Option<Climb>
        ensures { MatchOption result ((self.now.voices < 6 → semitones ≤ 127 → may (footing_of self.now.footing) self.now.left semitones ≡ false)) (λ up. (may (footing_of self.now.footing) self.now.left semitones ≡ true) × (up.voices ≡ self.now.voices + 1) × (semitones_of up.voices up.pitches ≡ semitones_of self.now.voices self.now.pitches ++ semitones ∷ []) × (footing_of up.footing ≡ above semitones) × (up.left ≡ less self.now.left (class semitones))) }
    {
        let pitch = Pitch::new(semitones)?;
        let class = usize::from(pitch.class().index());
        if self.voices >= 6 || !self.footing.bears(pitch) || self.left[class] == 0 {
            return None;
        }
        let mut pitches = self.pitches;
        pitches[self.voices] = pitch;
        let mut left = self.left;
        left[class] -= 1;
        Some(Climb {
            pitches,
            voices: self.voices + 1,
            footing: Footing::Above(pitch),
            left,
        })
    }

    // Whether every voice that the chord asks for has sung.
    pub(crate) fn is_sung(self) -> bool
        ensures { result ≡ all_zero self.left }
    {
        self.left.iter().all(|count| *count == 0)
    }
}
