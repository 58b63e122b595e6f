// A number of at most three digits, as it is read digit by digit.
ghost use Rattle.std.specs.Prelude.{◌≡◌, [], Some, None, MatchBool};
ghost use Rattle.text.specs.Numbers.{digits, number, pushed};

use arrayvec::ArrayVec;

// The digits read so far, each as a number.
#[derive(Drop)]
pub struct Numeral {
    digits: ArrayVec<u8, 3>,
}

impl Numeral {
    // No digit yet.
    pub fn new() -> Numeral
        ensures { digits result ≡ [] }
    {
        Numeral {
            digits: ArrayVec::new(),
        }
    }

    // Takes the byte in at the end, where it is a digit and there is room for it; whether it did, as a set's `insert` says.
    pub fn push(&mut self, byte: u8) -> bool
        ensures { MatchBool result (pushed (digits self.old) byte ≡ Some (digits self.new)) ((pushed (digits self.old) byte ≡ None) × (self.new ≡ self.old)) }
    {
        byte.is_ascii_digit() && self.digits.try_push(byte - b'0').is_ok()
    }

    // The number; none without a digit.
    pub fn value(&self) -> Option<u16>
        ensures { result ≡ number (digits self.now) }
    {
        let (first, rest) = self.digits.split_first()?;
        let mut value = u16::from(*first);
        for digit in rest {
            value = 10 * value + u16::from(*digit);
        }
        Some(value)
    }
}
