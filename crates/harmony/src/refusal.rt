// Every refusal of the product, with the number that a caller is answered and the place that a chart is faulted at.
ghost use Rattle.std.specs.Prelude.{◌≡◌, Some};
ghost use Rattle.harmony.specs.Refusals.{sentence, tells};

use std::error::Error;
use std::fmt;

#[derive(Clone, Copy, Debug, PartialEq, Eq, Hash)]
pub enum Refusal {
    // the ranges are not three to six
    VoiceNumber,
    // a pitch above 127, a low above its high, or a high more than 24 above its low
    ImproperRange,
    // a low or a high falls from a voice to the next
    FallingRange,
    // the symbol does not begin with a letter A to G
    NoRoot,
    // the quality is not in the list
    UnknownQuality,
    // the slash is not followed by exactly one letter A to G with at most one accidental
    MalformedBass,
    // the quality has more notes than there are voices
    TooManyNotes,
    // the bass is no class of the chord
    ForeignBass,
    // the chord has no row
    NoRow,
    // the chord has more than 256 rows
    TooManyRows,
    // 64 chords stand
    BoardFull,
    // the place is not one of a standing chord
    NoSuchPlace,
    // no chord stands
    NoChord,
    // the row table is shorter than needed
    ShortRowTable,
    // the cost table is shorter than needed
    ShortCostTable,
    // the pitch sheet is shorter than needed
    ShortPitchSheet,
    // the figure line is shorter than the measure's figures
    ShortFigureLine,
    // the chart has more bytes than a chart may have
    LongChart,
    // a line of the chart's heading is malformed
    MalformedHeading,
    // the listing is longer than the page
    ShortPage,
}

// Where a chart is at fault: a byte offset, by rule.
#[derive(Clone, Copy, Debug, PartialEq, Eq, Hash)]
pub enum Fault {
    // offset 0
    ChartStart,
    // the first byte of the heading's line
    LineStart,
    // the symbol's first byte
    SymbolStart,
    // the chart's length
    ChartEnd,
}

// What a refusal tells: its number, and the rule for its place where a chart can meet it.
#[derive(Clone, Copy, Debug, PartialEq, Eq, Hash)]
pub struct Notice {
    pub number: u8,
    pub fault: Option<Fault>,
}

impl Refusal {
    // The number that a caller is answered, and the rule for the place in a chart.
    pub fn notice(self) -> Notice
        ensures { result ≡ tells self }
    {
        let (number, fault) = match self {
            Refusal::VoiceNumber => (1, Some(Fault::ChartStart)),
            Refusal::ImproperRange => (2, Some(Fault::ChartStart)),
            Refusal::FallingRange => (3, Some(Fault::ChartStart)),
            Refusal::NoRoot => (4, Some(Fault::SymbolStart)),
            Refusal::UnknownQuality => (5, Some(Fault::SymbolStart)),
            Refusal::MalformedBass => (6, Some(Fault::SymbolStart)),
            Refusal::TooManyNotes => (7, Some(Fault::SymbolStart)),
            Refusal::ForeignBass => (8, Some(Fault::SymbolStart)),
            Refusal::NoRow => (9, Some(Fault::SymbolStart)),
            Refusal::TooManyRows => (10, Some(Fault::SymbolStart)),
            Refusal::BoardFull => (11, Some(Fault::SymbolStart)),
            Refusal::NoSuchPlace => (12, None),
            Refusal::NoChord => (13, Some(Fault::ChartEnd)),
            Refusal::ShortRowTable => (14, Some(Fault::ChartEnd)),
            Refusal::ShortCostTable => (15, Some(Fault::ChartEnd)),
            Refusal::ShortPitchSheet => (16, Some(Fault::ChartEnd)),
            Refusal::ShortFigureLine => (17, Some(Fault::ChartEnd)),
            Refusal::LongChart => (18, Some(Fault::ChartStart)),
            Refusal::MalformedHeading => (18, Some(Fault::LineStart)),
            Refusal::ShortPage => (19, Some(Fault::ChartEnd)),
        };
        Notice { number, fault }
    }
}

impl fmt::Display for Refusal {
    ghost output = { λ refusal. Some (sentence refusal) };

    fn fmt<W: fmt::Write>(&self, f: &mut fmt::Formatter<W>) -> fmt::Result {
        f.write_str(match self {
            Refusal::VoiceNumber => "the ranges are not three to six",
            Refusal::ImproperRange =>
                "a pitch above 127, a low above its high, or a high more than 24 above its low",
            Refusal::FallingRange => "a low or a high falls from a voice to the next",
            Refusal::NoRoot => "the symbol does not begin with a letter A to G",
            Refusal::UnknownQuality => "the quality is not in the list",
            Refusal::MalformedBass =>
                "the slash is not followed by exactly one letter A to G with at most one accidental",
            Refusal::TooManyNotes => "the quality has more notes than there are voices",
            Refusal::ForeignBass => "the bass is no class of the chord",
            Refusal::NoRow => "the chord has no row",
            Refusal::TooManyRows => "the chord has more than 256 rows",
            Refusal::BoardFull => "64 chords stand",
            Refusal::NoSuchPlace => "the place is not one of a standing chord",
            Refusal::NoChord => "no chord stands",
            Refusal::ShortRowTable => "the row table is shorter than needed",
            Refusal::ShortCostTable => "the cost table is shorter than needed",
            Refusal::ShortPitchSheet => "the pitch sheet is shorter than needed",
            Refusal::ShortFigureLine => "the figure line is shorter than the measure's figures",
            Refusal::LongChart => "the chart has more bytes than a chart may have",
            Refusal::MalformedHeading => "a line of the chart's heading is malformed",
            Refusal::ShortPage => "the listing is longer than the page",
        })
    }
}

impl Error for Refusal {}
