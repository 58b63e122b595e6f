// The line of ranges that stands before the symbols.
ghost use Rattle.std.specs.Prelude.{◌≡◌};
ghost use Rattle.harmony.specs.Results.{result_map};
ghost use Rattle.rowlist.specs.Headings.{opened, opening};

use harmony::refusal::Refusal;
use harmony::voices::Voices;
use text::limit::CHART_LIMIT;
use text::range_line::range_line;

// The voices, and the body of the chart: the bytes behind the line.
#[derive(Clone, Copy, Debug)]
pub struct Heading<'a> {
    pub voices: Voices,
    pub body: &'a [u8],
}

// The heading of a chart, or why it is refused.
pub fn read_heading(chart: &[u8]) -> Result<Heading<'_>, Refusal>
    ensures { result_map opened result ≡ opening chart.now }
{
    if chart.len() > CHART_LIMIT {
        return Err(Refusal::LongChart);
    }
    let line = range_line(chart)?;
    let voices = line.voices()?;
    Ok(Heading {
        voices,
        body: &chart[line.end()..],
    })
}
