// Chord symbols: a root, a quality, and perhaps a slash with a bass.
ghost use Rattle.std.specs.Prelude.{◌≡◌, ◌==◌, option_map, position};
ghost use Rattle.harmony.specs.Results.{result_map};
ghost use Rattle.harmony.specs.Symbols.{accidental, alone, before_slash, behind_slash, held, indices, letter, named, note, reading, slashed, symbol_of};

use crate::pitch::PitchClass;
use crate::quality::Quality;
use crate::refusal::Refusal;

// What a symbol says.
#[derive(Clone, Copy, Debug, PartialEq, Eq, Hash)]
pub struct Symbol {
    pub root: PitchClass,
    pub quality: Quality,
    pub bass: Option<PitchClass>,
}

// The class of a root letter.
fn letter(byte: u8) -> Option<PitchClass>
    ensures { indices result ≡ letter byte }
{
    let semitones = match char::from(byte) {
        'C' => 0,
        'D' => 2,
        'E' => 4,
        'F' => 5,
        'G' => 7,
        'A' => 9,
        'B' => 11,
        _ => return None,
    };
    Some(PitchClass::C.above(semitones))
}

// A note's name at the front of a text: its class, and the text behind it.
#[derive(Clone, Copy, Debug, PartialEq, Eq)]
struct NoteName<'a> {
    class: PitchClass,
    rest: &'a [u8],
}

// A letter's name with the accidental that may stand behind the letter.
fn accidental(class: PitchClass, behind: &[u8]) -> NoteName<'_>
    ensures { named result ≡ accidental class.index behind.now }
{
    match behind {
        [b'#', rest @ ..] => NoteName {
            class: class.above(1),
            rest,
        },
        [b'b', rest @ ..] => NoteName {
            class: class.above(11),
            rest,
        },
        rest => NoteName { class, rest },
    }
}

// The note that is named at the front of a text.
fn note(text: &[u8]) -> Option<NoteName<'_>>
    ensures { option_map named result ≡ note text.now }
{
    let (first, behind) = text.split_first()?;
    Some(accidental(letter(*first)?, behind))
}

// The place of the first slash.
fn slash(text: &[u8]) -> Option<usize>
    ensures { result ≡ position (λ b. b == 47) text.now }
{
    text.iter().position(|byte| *byte == b'/')
}

// The text before the first slash, and the text behind it where there is one.
fn split(text: &[u8]) -> (&[u8], Option<&[u8]>)
    ensures before { result.0.now ≡ before_slash text.now }
    ensures behind { held result.1 ≡ behind_slash text.now }
{
    match slash(text) {
        Some(i) => (&text[..i], Some(&text[i + 1..])),
        None => (text, None),
    }
}

// The class of a note's name with nothing behind it.
fn alone(text: &[u8]) -> Option<PitchClass>
    ensures { indices result ≡ alone (note text.now) }
{
    note(text)
        .filter(|name| name.rest.is_empty())
        .map(|name| name.class)
}

// The bass that is named behind a slash, where there is a slash.
fn slashed(behind: Option<&[u8]>) -> Result<Option<PitchClass>, Refusal>
    ensures { result_map indices result ≡ slashed (held behind.entry) }
{
    let Some(text) = behind else {
        return Ok(None);
    };
    alone(text).map(Some).ok_or(Refusal::MalformedBass)
}

impl Symbol {
    // What a symbol says, or why it is none. By name, since a `TryFrom` of bytes would not say what the bytes are.
    pub fn read(bytes: &[u8]) -> Result<Symbol, Refusal>
        ensures { result_map reading result ≡ symbol_of bytes.now }
    {
        let root = note(bytes).ok_or(Refusal::NoRoot)?;
        let (name, behind) = split(root.rest);
        let quality = Quality::named(name).ok_or(Refusal::UnknownQuality)?;
        let bass = slashed(behind)?;
        Ok(Symbol {
            root: root.class,
            quality,
            bass,
        })
    }
}
