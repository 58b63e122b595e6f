// The qualities of a chord: what they are called, which notes they have, and which of these are doubled.
ghost use Rattle.std.specs.Prelude.{◌≡◌, ◌+◌, ◌≤◌, length};
ghost use Rattle.harmony.specs.Qualities.{name_of, named_among, quality_of, tones_of};

#[derive(Clone, Copy, Debug, PartialEq, Eq, Hash)]
pub enum Quality {
    Major,
    Minor,
    Diminished,
    Augmented,
    Suspended,
    Sixth,
    MinorSixth,
    Seventh,
    MajorSeventh,
    MinorSeventh,
    HalfDiminished,
    DiminishedSeventh,
}

// The notes of a quality in semitones above the root, and the notes that are doubled, in that order, where voices are left.
// Both together are enough for six voices.
#[derive(Clone, Copy, Debug, PartialEq, Eq, Hash)]
pub struct Tones {
    pub notes: &'static [u8],
    pub doubled: &'static [u8],
    ghost enough: { 6 ≤ length notes.now + length doubled.now },
}

impl Quality {
    // The text that names it in a symbol: bytes, as the symbol is, where `Display` would write text.
    pub fn name(self) -> &'static [u8]
        ensures { result.now ≡ name_of self }
    {
        match self {
            Quality::Major => b"",
            Quality::Minor => b"m",
            Quality::Diminished => b"dim",
            Quality::Augmented => b"aug",
            Quality::Suspended => b"sus4",
            Quality::Sixth => b"6",
            Quality::MinorSixth => b"m6",
            Quality::Seventh => b"7",
            Quality::MajorSeventh => b"maj7",
            Quality::MinorSeventh => b"m7",
            Quality::HalfDiminished => b"m7b5",
            Quality::DiminishedSeventh => b"dim7",
        }
    }

    // The quality that a text names. An option and no `TryFrom`, since what to refuse with is for the symbol to say.
    pub fn named(text: &[u8]) -> Option<Quality>
        ensures { result ≡ quality_of text.now }
    {
        Some(match text {
            b"" => Quality::Major,
            b"m" => Quality::Minor,
            b"dim" => Quality::Diminished,
            b"aug" => Quality::Augmented,
            b"sus4" => Quality::Suspended,
            b"6" => Quality::Sixth,
            b"m6" => Quality::MinorSixth,
            b"7" => Quality::Seventh,
            b"maj7" => Quality::MajorSeventh,
            b"m7" => Quality::MinorSeventh,
            b"m7b5" => Quality::HalfDiminished,
            b"dim7" => Quality::DiminishedSeventh,
            _ => return None,
        })
    }

    // Its notes, and which of them are doubled.
    pub fn tones(self) -> Tones
        ensures notes { result.notes.now ≡ (tones_of self).notes }
        ensures doubled { result.doubled.now ≡ (tones_of self).doubled }
    {
        let (notes, doubled): (&'static [u8], &'static [u8]) = match self {
            Quality::Major => (&[0, 4, 7], &[0, 7, 4]),
            Quality::Minor => (&[0, 3, 7], &[0, 7, 3]),
            Quality::Diminished => (&[0, 3, 6], &[0, 6, 3]),
            Quality::Augmented => (&[0, 4, 8], &[0, 8, 4]),
            Quality::Suspended => (&[0, 5, 7], &[0, 7, 5]),
            Quality::Sixth => (&[0, 4, 7, 9], &[0, 7, 4]),
            Quality::MinorSixth => (&[0, 3, 7, 9], &[0, 7, 3]),
            Quality::Seventh => (&[0, 4, 7, 10], &[0, 7, 4]),
            Quality::MajorSeventh => (&[0, 4, 7, 11], &[0, 7, 4]),
            Quality::MinorSeventh => (&[0, 3, 7, 10], &[0, 7, 3]),
            Quality::HalfDiminished => (&[0, 3, 6, 10], &[0, 6, 3]),
            Quality::DiminishedSeventh => (&[0, 3, 6, 9], &[0, 6, 3]),
        };
        Tones { notes, doubled }
    }
}
