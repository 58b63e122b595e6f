// The line of ranges, a chart's first line.
ghost use Rattle.std.specs.Prelude.{◌≡◌, ℕ, ◌+◌, ◌^◌, ◌<◌, ◌≤◌, List, length, replicate, Some, None, Ok, Err, codes, MatchOption, MatchResult};
ghost use Rattle.harmony.specs.Results.{result_map};
ghost use Rattle.harmony.specs.VoiceRanges.{ranges_of};
ghost use Rattle.harmony.specs.declared.refusal.Refusal.TheVariants.{MalformedHeading};
ghost use Rattle.text.specs.RangeLines.{behind, range_line};
ghost use Rattle.text.specs.Telling.{Told, filled, more, voices_within};
ghost use Rattle.text.specs.Written.{LineForm};

use crate::place::Place;
use harmony::range::Bounds;
use harmony::refusal::Refusal;
use harmony::voices::Voices;

// The number of ranges in the line, the first six of them, and the offset of the byte behind the line feed.
// An array, since the type is `Copy` for callers, as an `ArrayVec` is not; and there may be more ranges than it has.
#[derive(Clone, Copy, Debug)]
pub struct RangeLine {
    count: usize,
    first: [Bounds; 6],
    end: usize,
    ghost full: { length first ≡ 6 },
    ghost counted: { count ≤ end },
}

impl RangeLine {
    // The line read as far as its word, which has six bytes: no range yet.
    fn word() -> RangeLine
        ensures count { result.count ≡ 0 }
        ensures first { result.first ≡ replicate 6 (record { low = 0; high = 0 }) }
        ensures end { result.end ≡ 6 }
    {
        RangeLine {
            count: 0,
            first: [Bounds { low: 0, high: 0 }; 6],
            end: 6,
        }
    }

    // The line with one byte more, and the range that the byte ends, if any; only the first six are kept.
    fn with(self, closed: Option<Bounds>) -> RangeLine
        requires { self.end + 1 < 2 ^ 64 }
        ensures count { result.count ≡ more self.count closed }
        ensures first { result.first ≡ filled self.first self.count closed }
        ensures end { result.end ≡ self.end + 1 }
    {
        let mut count = self.count;
        let mut first = self.first;
        if let Some(range) = closed {
            if count < 6 {
                first[count] = range;
            }
            count += 1;
        }
        RangeLine {
            count,
            first,
            end: self.end + 1,
        }
    }

    // The voices with these ranges, or the first rule that they break.
    pub fn voices(&self) -> Result<Voices, Refusal>
        ensures { result_map ranges_of result ≡ voices_within self.now.count self.now.first }
    {
        if self.count > 6 {
            return Err(Refusal::VoiceNumber);
        }
        Voices::new(&self.first[..self.count])
    }

    // The offset of the byte behind the line feed.
    pub fn end(&self) -> usize
        ensures { result ≡ self.now.end }
    {
        self.end
    }
}

// The line of ranges with these bytes behind its word; none where it is malformed.
fn behind_word(rest: &[u8]) -> Option<RangeLine>
    ensures { (chart : List ℕ) → behind (codes "voices") chart ≡ Some rest.now → MatchOption result (range_line chart ≡ None) (λ l. Told chart l.count l.first l.end) }
{
    let mut line = RangeLine::word();
    let mut place = Place::Between;
    for byte in rest {
        let step = place.step(*byte)?;
        line = line.with(step.closed);
        match step.to {
            Some(to) => place = to,
            None => return Some(line),
        }
    }
    None
}

// The line of ranges of the chart, or that it is malformed.
pub fn range_line(chart: &[u8]) -> Result<RangeLine, Refusal>
    ensures told { MatchResult result (λ l. Told chart.now l.count l.first l.end) (λ e. (e ≡ MalformedHeading) × (range_line chart.now ≡ None)) }
    ensures form { LineForm chart.now }
{
    chart
        .strip_prefix(b"voices")
        .and_then(behind_word)
        .ok_or(Refusal::MalformedHeading)
}
