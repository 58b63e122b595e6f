// What a line of input asks for: a measure's letter and numbers, parted by spaces.
ghost use Rattle.std.specs.Prelude.{◌≡◌, ◌≢◌, [], ◌∷◌, MatchResult};
ghost use Rattle.house.specs.Letters.{letter_of};
ghost use Rattle.house.specs.declared.named.HouseMeasure.{HouseMeasure};

use house::named::{HouseMeasure, UnknownLetter};
use std::alloc::{AllocError, Global};
use std::error::Error;
use std::fmt;

// The measure and the numbers that a line names.
#[derive(Debug, Drop)]
pub(crate) struct Request {
    pub measure: HouseMeasure,
    pub numbers: Vec<u8>,
}

// Why a line asks for nothing.
#[derive(Debug, Drop)]
pub(crate) enum RequestError<'a> {
    // the word is no number that a line may have
    NoNumber(&'a str),
    NoMeasure(UnknownLetter),
    OutOfMemory(AllocError),
}

impl fmt::Display for RequestError<'_> {
    fn fmt<W: fmt::Write>(&self, f: &mut fmt::Formatter<W>) -> fmt::Result {
        match self {
            RequestError::NoNumber(word) => write!(f, "{word} is no number from 0 to 255"),
            RequestError::NoMeasure(error) => write!(f, "{error}"),
            RequestError::OutOfMemory(error) => write!(f, "{error}"),
        }
    }
}

impl Error for RequestError<'_> {}

impl From<AllocError> for RequestError<'_> {
    fn from(error: AllocError) -> Self {
        RequestError::OutOfMemory(error)
    }
}

impl From<UnknownLetter> for RequestError<'_> {
    fn from(error: UnknownLetter) -> Self {
        RequestError::NoMeasure(error)
    }
}

// The request of a line; a word that is no number is told before a letter that no measure has.
// One loop over all words: where the next word is asked for in two places, the search for it is a call each time.
pub(crate) fn read_request(alloc: Global, text: &str) -> Result<Request, RequestError> {
    let mut measure = Err(UnknownLetter);
    let mut numbers = Vec::new(alloc);
    for (place, word) in text.split(' ').enumerate() {
        match place {
            0 => measure = measure_of(word),
            _ => numbers.push(number_of(word)?).map_err(AllocError::from)?,
        }
    }
    Ok(Request {
        measure: measure?,
        numbers,
    })
}

// The number that a word names.
fn number_of(word: &str) -> Result<u8, RequestError> {
    word.parse().map_err(|_| RequestError::NoNumber(word))
}

// The measure that a word names: one letter. No `FromStr`, since the trait and the measure are both from elsewhere.
fn measure_of(word: &str) -> Result<HouseMeasure, UnknownLetter>
    ensures { MatchResult result (λ h. word.now ≡ letter_of h ∷ []) (λ _. (h : HouseMeasure) → word.now ≢ letter_of h ∷ []) }
{
    let [letter] = word.as_bytes() else {
        return Err(UnknownLetter);
    };
    HouseMeasure::try_from(*letter)
}
