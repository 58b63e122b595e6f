// The voices of a board: three to six ranges that rise.
ghost use Rattle.std.specs.Prelude.{◌≡◌, ◌<◌, ◌≤◌, true, map, length, take, is_ok, MatchResult};
ghost use Rattle.harmony.specs.Ranges.{bounds, voices_of};
ghost use Rattle.harmony.specs.declared.refusal.Refusal.TheVariants.{VoiceNumber};

use crate::range::Range;
use crate::refusal::Refusal;

mod setting;

// How many voices there are: 3 to 6.
#[derive(Clone, Copy, Debug, PartialEq, Eq, Hash)]
pub struct VoiceCount {
    number: usize,
    ghost fewest: { 3 ≤ number },
    ghost most: { number ≤ 6 },
}

// The ranges of the voices, from the lowest voice up; what stands behind the last voice means nothing.
// An array with a count, since voices are `Copy` for callers, as an `ArrayVec` is not.
#[derive(Clone, Copy, Debug)]
pub struct Voices {
    count: VoiceCount,
    ranges: [Range; 6],
    ghost full: { length ranges ≡ 6 },
    ghost kept: { is_ok (voices_of (map bounds (take count.number ranges))) ≡ true },
}

// That many voices, where they are three to six.
impl TryFrom<usize> for VoiceCount {
    type Error = Refusal;

    ghost try_from_gives = { λ number answer. MatchResult answer (λ n. n.number ≡ number) (λ e. (3 ≤ number → 6 < number) × (e ≡ VoiceNumber)) };

    fn try_from(number: usize) -> Result<VoiceCount, Refusal> {
        match number {
            3..=6 => Ok(VoiceCount { number }),
            _ => Err(Refusal::VoiceNumber),
        }
    }
}

impl VoiceCount {
    pub fn number(self) -> usize
        ensures { result ≡ self.number }
    {
        self.number
    }
}
