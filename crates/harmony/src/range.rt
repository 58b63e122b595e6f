// The range of a voice, and bounds that are not yet known to be one.
ghost use Rattle.std.specs.Prelude.{◌≡◌, ◌<◌, MatchOption};
ghost use Rattle.harmony.specs.Ranges.{bounds, low_high, ranged};
ghost use Rattle.harmony.specs.Results.{result_map};

use crate::pitch::Pitch;
use crate::refusal::Refusal;

// A low and a high as a caller wrote them.
#[derive(Clone, Copy, Debug, PartialEq, Eq, Hash)]
pub struct Bounds {
    pub low: u16,
    pub high: u16,
}

// The lowest and the highest pitch of a voice.
#[derive(Clone, Copy, Debug, PartialEq, Eq, Hash)]
pub struct Range {
    pub low: Pitch,
    pub high: Pitch,
}

// Low and high as two bytes.
impl From<[u8; 2]> for Bounds {
    ghost from_gives = { λ pair within. within ≡ low_high pair };

    fn from(pair: [u8; 2]) -> Bounds {
        let [low, high] = pair;
        Bounds {
            low: u16::from(low),
            high: u16::from(high),
        }
    }
}

// The pitch of a bound: private, where a `TryFrom` would stand beside `Pitch::new` for all.
fn pitch(semitones: u16) -> Option<Pitch>
    ensures { MatchOption result (127 < semitones) (λ p. p.semitones ≡ semitones) }
{
    u8::try_from(semitones).ok().and_then(Pitch::new)
}

// The range with these bounds, where they are proper.
impl TryFrom<Bounds> for Range {
    type Error = Refusal;

    ghost try_from_gives = { λ within answer. result_map bounds answer ≡ ranged within };

    fn try_from(within: Bounds) -> Result<Range, Refusal> {
        let low = pitch(within.low).ok_or(Refusal::ImproperRange)?;
        let high = pitch(within.high).ok_or(Refusal::ImproperRange)?;
        if low > high || high.semitones() - low.semitones() > 24 {
            return Err(Refusal::ImproperRange);
        }
        Ok(Range { low, high })
    }
}
