// Where a reader of the line of ranges stands, and what a byte does there.
ghost use Rattle.std.specs.Prelude.{◌≡◌};
ghost use Rattle.std.specs.Option.{option_map};
ghost use Rattle.text.specs.Numbers.{digits};
ghost use Rattle.text.specs.RangeLines.{in_high, in_low, parted, step};
ghost use Rattle.text.specs.Telling.{place_of, step_of};

use crate::numeral::Numeral;
use harmony::range::Bounds;

#[derive(Drop)]
pub enum Place {
    // behind the word `voices`
    Between,
    // in a low
    Low(Numeral),
    // in a high, with the low before it
    High(u16, Numeral),
}

// What a byte does: the range that it ends, if any, and the place behind it; none where the line ends with the byte.
#[derive(Drop)]
pub struct Step {
    pub closed: Option<Bounds>,
    pub to: Option<Place>,
}

// What a byte does behind a whole range or behind the word.
fn part(closed: Option<Bounds>, byte: u8) -> Option<Step>
    ensures { option_map step_of result ≡ parted closed byte }
{
    match byte {
        b'\n' => Some(Step { closed, to: None }),
        b' ' => Some(Step {
            closed,
            to: Some(Place::Low(Numeral::new())),
        }),
        _ => None,
    }
}

// What a byte does in a low.
fn low_step(mut number: Numeral, byte: u8) -> Option<Step>
    ensures { option_map step_of result ≡ step (in_low (digits number)) byte }
{
    let to = if number.push(byte) {
        Place::Low(number)
    } else if byte == b'-' {
        Place::High(number.value()?, Numeral::new())
    } else {
        return None;
    };
    Some(Step {
        closed: None,
        to: Some(to),
    })
}

// What a byte does in a high behind that low.
fn high_step(low: u16, mut number: Numeral, byte: u8) -> Option<Step>
    ensures { option_map step_of result ≡ step (in_high low (digits number)) byte }
{
    if number.push(byte) {
        return Some(Step {
            closed: None,
            to: Some(Place::High(low, number)),
        });
    }
    let high = number.value()?;
    part(Some(Bounds { low, high }), byte)
}

impl Place {
    // What the byte does here; none where it is out of place. A match, since each place holds what was read in it: no table of steps would be plainer.
    pub fn step(self, byte: u8) -> Option<Step>
        ensures { option_map step_of result ≡ step (place_of self) byte }
    {
        match self {
            Place::Between => part(None, byte),
            Place::Low(number) => low_step(number, byte),
            Place::High(low, number) => high_step(low, number, byte),
        }
    }
}
