// The voices that ranges make: from bounds, from bytes, and of a board that was never set up.
ghost use Rattle.std.specs.Prelude.{◌≡◌, ◌≤◌, cond, map, length, take, IfOk};
ghost use Rattle.harmony.specs.declared.refusal.Refusal.TheVariants.{ImproperRange};
ghost use Rattle.harmony.specs.Results.{result_map};
ghost use Rattle.harmony.specs.Ranges.{all_proper, bounds, low_high, never_set, not_lower, rising, set_up, voices_of};
ghost use Rattle.harmony.specs.VoiceRanges.{ranges_of};

use crate::pitch::Pitch;
use crate::range::{Bounds, Range};
use crate::refusal::Refusal;
use crate::voices::{VoiceCount, Voices};

// Whether neither bound of a voice is lower than that of the voice below.
fn stands_on(upper: Bounds, lower: Bounds) -> bool
    ensures { result ≡ not_lower lower upper }
{
    lower.low <= upper.low && lower.high <= upper.high
}

// Whether neither the lows nor the highs fall from a voice to the next.
fn rises(within: &[Bounds]) -> bool
    ensures { result ≡ rising within.now }
{
    within.is_sorted_by(|lower, upper| stands_on(*upper, *lower))
}

// The ranges with these bounds, where each is proper.
fn ranges_within(within: &[Bounds]) -> Result<[Range; 6], Refusal>
    requires { length within.now ≤ 6 }
    ensures same { result_map (λ rs. map bounds (take (length within.now) rs)) result ≡ cond (all_proper within.now) (Ok within.now) (Err ImproperRange) }
    ensures full { IfOk result (λ rs. length rs ≡ 6) }
{
    let mut ranges = [Range {
        low: Pitch::MIDDLE_C,
        high: Pitch::MIDDLE_C,
    }; 6];
    // by index, since behind a zip with `iter_mut` nothing is known of what was written
    for (i, bounds) in within.iter().enumerate() {
        ranges[i] = Range::try_from(*bounds)?;
    }
    Ok(ranges)
}

// The bounds of each voice, from low and high as bytes.
fn bounds_of(pairs: &[[u8; 2]]) -> [Bounds; 6]
    requires { length pairs.now ≤ 6 }
    ensures { take (length pairs.now) result ≡ map low_high pairs.now }
{
    let mut within = [Bounds { low: 0, high: 0 }; 6];
    // by index, as above
    for (i, pair) in pairs.iter().enumerate() {
        within[i] = Bounds::from(*pair);
    }
    within
}

// The voices of a board that was never set up: three of 48 to 72.
impl Default for Voices {
    ghost is_default = { λ voices. ranges_of voices ≡ never_set };

    fn default() -> Voices {
        let range = Range {
            low: Pitch::LOW_C,
            high: Pitch::HIGH_C,
        };
        Voices {
            count: VoiceCount { number: 3 },
            ranges: [range; 6],
        }
    }
}

impl Voices {
    // The voices with these bounds, or the first rule that they break.
    pub fn new(within: &[Bounds]) -> Result<Voices, Refusal>
        ensures { result_map ranges_of result ≡ voices_of within.now }
    {
        let count = VoiceCount::try_from(within.len())?;
        let ranges = ranges_within(within)?;
        if !rises(within) {
            return Err(Refusal::FallingRange);
        }
        Ok(Voices { count, ranges })
    }

    // The voices with the bounds in these bytes, low and high of voice 1, then of voice 2, and so on; or the first rule that they break.
    // By name, since a `TryFrom` of bytes would not say what the bytes are.
    pub fn from_bytes(bytes: &[u8]) -> Result<Voices, Refusal>
        ensures { result_map ranges_of result ≡ set_up bytes.now }
    {
        let (pairs, rest) = bytes.as_chunks();
        if !rest.is_empty() || pairs.len() > 6 {
            return Err(Refusal::VoiceNumber);
        }
        Voices::new(&bounds_of(pairs)[..pairs.len()])
    }

    // How many voices there are.
    pub fn count(&self) -> VoiceCount
        ensures { result ≡ self.now.count }
    {
        self.count
    }

    // The range of each voice, from the lowest up.
    pub fn ranges(&self) -> &[Range]
        ensures { result.now ≡ take self.now.count.number self.now.ranges }
    {
        &self.ranges[..self.count.number]
    }
}
