// Chord symbols against counts worked by hand.
use harmony::chord::Chord;
use harmony::voices::VoiceCount;

// A symbol, a number of voices, and the counts of the classes C to B or the number of the refusal.
struct Doubled(&'static [u8], usize, Result<&'static [u8], u8>);

const DOUBLED: [Doubled; 48] = [
    Doubled(b"C", 3, Ok(b"100010010000")),
    Doubled(b"C", 4, Ok(b"200010010000")),
    Doubled(b"C", 5, Ok(b"200010020000")),
    Doubled(b"C", 6, Ok(b"200020020000")),
    Doubled(b"Cm", 3, Ok(b"100100010000")),
    Doubled(b"Cm", 4, Ok(b"200100010000")),
    Doubled(b"Cm", 5, Ok(b"200100020000")),
    Doubled(b"Cm", 6, Ok(b"200200020000")),
    Doubled(b"Cdim", 3, Ok(b"100100100000")),
    Doubled(b"Cdim", 4, Ok(b"200100100000")),
    Doubled(b"Cdim", 5, Ok(b"200100200000")),
    Doubled(b"Cdim", 6, Ok(b"200200200000")),
    Doubled(b"Caug", 3, Ok(b"100010001000")),
    Doubled(b"Caug", 4, Ok(b"200010001000")),
    Doubled(b"Caug", 5, Ok(b"200010002000")),
    Doubled(b"Caug", 6, Ok(b"200020002000")),
    Doubled(b"Csus4", 3, Ok(b"100001010000")),
    Doubled(b"Csus4", 4, Ok(b"200001010000")),
    Doubled(b"Csus4", 5, Ok(b"200001020000")),
    Doubled(b"Csus4", 6, Ok(b"200002020000")),
    Doubled(b"C6", 3, Err(7)),
    Doubled(b"C6", 4, Ok(b"100010010100")),
    Doubled(b"C6", 5, Ok(b"200010010100")),
    Doubled(b"C6", 6, Ok(b"200010020100")),
    Doubled(b"Cm6", 3, Err(7)),
    Doubled(b"Cm6", 4, Ok(b"100100010100")),
    Doubled(b"Cm6", 5, Ok(b"200100010100")),
    Doubled(b"Cm6", 6, Ok(b"200100020100")),
    Doubled(b"C7", 3, Err(7)),
    Doubled(b"C7", 4, Ok(b"100010010010")),
    Doubled(b"C7", 5, Ok(b"200010010010")),
    Doubled(b"C7", 6, Ok(b"200010020010")),
    Doubled(b"Cmaj7", 3, Err(7)),
    Doubled(b"Cmaj7", 4, Ok(b"100010010001")),
    Doubled(b"Cmaj7", 5, Ok(b"200010010001")),
    Doubled(b"Cmaj7", 6, Ok(b"200010020001")),
    Doubled(b"Cm7", 3, Err(7)),
    Doubled(b"Cm7", 4, Ok(b"100100010010")),
    Doubled(b"Cm7", 5, Ok(b"200100010010")),
    Doubled(b"Cm7", 6, Ok(b"200100020010")),
    Doubled(b"Cm7b5", 3, Err(7)),
    Doubled(b"Cm7b5", 4, Ok(b"100100100010")),
    Doubled(b"Cm7b5", 5, Ok(b"200100100010")),
    Doubled(b"Cm7b5", 6, Ok(b"200100200010")),
    Doubled(b"Cdim7", 3, Err(7)),
    Doubled(b"Cdim7", 4, Ok(b"100100100100")),
    Doubled(b"Cdim7", 5, Ok(b"200100100100")),
    Doubled(b"Cdim7", 6, Ok(b"200100200100")),
];

// A symbol with its counts in three voices and its bass.
struct Named(&'static [u8], &'static [u8], u8);

const NAMED: [Named; 14] = [
    Named(b"D", b"001000100100", 2),
    Named(b"E", b"000010001001", 4),
    Named(b"F", b"100001000100", 5),
    Named(b"G", b"001000010001", 7),
    Named(b"A", b"010010000100", 9),
    Named(b"B", b"000100100001", 11),
    Named(b"Bb", b"001001000010", 10),
    Named(b"Cb", b"000100100001", 11),
    Named(b"Fb", b"000010001001", 4),
    Named(b"B#", b"100010010000", 0),
    Named(b"F#m/C#", b"010000100100", 1),
    Named(b"C/E", b"100010010000", 4),
    Named(b"Caug/E", b"100010001000", 4),
    Named(b"Eaug", b"100010001000", 4),
];

// A symbol, a number of voices, and the number of its refusal.
struct Refused(&'static [u8], usize, u8);

const REFUSED: [Refused; 27] = [
    Refused(b"", 3, 4),
    Refused(b"H", 3, 4),
    Refused(b"c", 3, 4),
    Refused(b"#", 3, 4),
    Refused(b"/C", 3, 4),
    Refused(b"\xc3\xa9", 3, 4),
    Refused(b"Cb5", 3, 5),
    Refused(b"Bbb", 3, 5),
    Refused(b"C##", 3, 5),
    Refused(b"C13/H", 3, 5),
    Refused(b"CM", 3, 5),
    Refused(b"Cm7b", 4, 5),
    Refused(b"Cm7b55", 4, 5),
    Refused(b"C\xff", 3, 5),
    Refused(b"C\t", 3, 5),
    Refused(b"C/", 3, 6),
    Refused(b"C//E", 3, 6),
    Refused(b"C/E/G", 3, 6),
    Refused(b"C/Ebb", 3, 6),
    Refused(b"C/H", 3, 6),
    Refused(b"C/\xff", 3, 6),
    Refused(b"C7/H", 3, 6),
    Refused(b"G7", 3, 7),
    Refused(b"C7/D", 3, 7),
    Refused(b"C/D", 3, 8),
    Refused(b"C/Eb", 6, 8),
    Refused(b"C7/B", 4, 8),
];

// The chord that a symbol names in so many voices, or the number of its refusal; none where there cannot be so many.
fn read(symbol: &[u8], voices: usize) -> Option<Result<Chord, u8>> {
    let voices = VoiceCount::try_from(voices).ok()?;
    Some(Chord::read(symbol, voices).map_err(|refusal| refusal.notice().number))
}

// The counts as digits.
fn digits(chord: &Chord) -> [u8; 12] {
    chord.counts().map(|count| count.saturating_add(b'0'))
}

// Whether the symbol has these counts in so many voices, or is refused with this number.
fn agrees(symbol: &[u8], voices: usize, wanted: Result<&[u8], u8>) -> bool {
    match (read(symbol, voices), wanted) {
        (Some(Ok(chord)), Ok(counts)) => digits(&chord).as_slice() == counts,
        (Some(Err(number)), Err(refused)) => number == refused,
        _ => false,
    }
}

// The symbol's bass class in three voices.
fn bass_of(symbol: &[u8]) -> Option<u8> {
    let chord = read(symbol, 3)?.ok()?;
    Some(chord.bass().index())
}

// The number that the symbol is refused with.
fn refusal_of(symbol: &[u8], voices: usize) -> Option<u8> {
    read(symbol, voices)?.err()
}

#[test]
fn every_quality_is_doubled_in_its_order(rt: HostRuntime) {
    for Doubled(symbol, voices, counts) in &DOUBLED {
        assert!(rt; agrees(symbol, *voices, *counts));
    }
}

#[test]
fn every_root_and_bass_is_read(rt: HostRuntime) {
    for Named(symbol, counts, bass) in &NAMED {
        assert!(rt; agrees(symbol, 3, Ok(*counts)));
        assert_eq!(rt; bass_of(symbol), Some(*bass));
    }
}

#[test]
fn every_bad_symbol_is_refused(rt: HostRuntime) {
    for Refused(symbol, voices, number) in &REFUSED {
        assert_eq!(rt; refusal_of(symbol, *voices), Some(*number));
    }
}
