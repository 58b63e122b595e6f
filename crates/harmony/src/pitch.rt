// A pitch, and the class that it shares with its octaves.
// Pitches, classes and moves stay three types and not one bounded number: each has its own word for its number and its own calls, and only two have a `new` that they could share.
ghost use Rattle.std.specs.Prelude.{◌≡◌, ◌+◌, ◌<◌, ◌≤◌, MatchOption};
ghost use Rattle.harmony.specs.Pitches.{around, class};

// A pitch in semitones, 0 to 127; 60 is middle C.
#[derive(Clone, Copy, Debug, PartialEq, Eq, PartialOrd, Ord, Hash)]
pub struct Pitch {
    semitones: u8,
    ghost bounded: { semitones ≤ 127 },
}

// A pitch class, 0 to 11; C is 0.
#[derive(Clone, Copy, Debug, PartialEq, Eq, Hash)]
pub struct PitchClass {
    index: u8,
    ghost bounded: { index < 12 },
}

impl Pitch {
    pub const LOW_C: Pitch = Pitch { semitones: 48 };

    pub const MIDDLE_C: Pitch = Pitch { semitones: 60 };

    pub const HIGH_C: Pitch = Pitch { semitones: 72 };

    // The pitch of that many semitones; none above 127. A `const fn` for callers, beside which a `TryFrom` would say the same twice.
    pub const fn new(semitones: u8) -> Option<Pitch>
        ensures { MatchOption result (127 < semitones) (λ p. p.semitones ≡ semitones) }
    {
        if semitones <= 127 {
            Some(Pitch { semitones })
        } else {
            None
        }
    }

    pub const fn semitones(self) -> u8
        ensures { result ≡ self.semitones }
    {
        self.semitones
    }

    // The pitch's class: what it has in common with its octaves.
    pub const fn class(self) -> PitchClass
        ensures { result.index ≡ class self.semitones }
    {
        PitchClass {
            index: self.semitones % 12,
        }
    }
}

impl PitchClass {
    pub const C: PitchClass = PitchClass { index: 0 };

    // The class that many semitones above this one.
    pub const fn above(self, semitones: u8) -> PitchClass
        ensures { result.index ≡ around (self.index + semitones) }
    {
        PitchClass {
            index: (self.index + semitones % 12) % 12,
        }
    }

    pub const fn index(self) -> u8
        ensures { result ≡ self.index }
    {
        self.index
    }
}
