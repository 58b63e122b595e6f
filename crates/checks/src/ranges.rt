// Ranges from bytes, at the boundary of every rule.
use harmony::range::Range;
use harmony::voices::Voices;

// Bytes that are accepted, or the number of their refusal.
struct SetUp(&'static [u8], Result<(), u8>);

const SET_UPS: [SetUp; 24] = [
    SetUp(&[48, 60, 55, 67, 60, 72], Ok(())),
    SetUp(&[0, 24, 0, 24, 0, 24, 0, 24], Ok(())),
    SetUp(&[60, 60, 60, 60, 60, 60, 60, 60, 60, 60], Ok(())),
    SetUp(
        &[103, 127, 103, 127, 103, 127, 103, 127, 103, 127, 103, 127],
        Ok(()),
    ),
    SetUp(&[], Err(1)),
    SetUp(&[48, 60, 55, 67], Err(1)),
    SetUp(&[48, 60, 55, 67, 60], Err(1)),
    SetUp(&[48, 60, 55, 67, 60, 72, 60], Err(1)),
    SetUp(&[200; 13], Err(1)),
    SetUp(&[60; 14], Err(1)),
    SetUp(&[48, 72, 48, 72, 48, 72], Ok(())),
    SetUp(&[48, 73, 48, 73, 48, 73], Err(2)),
    SetUp(&[48, 72, 48, 72, 48, 73], Err(2)),
    SetUp(&[104, 127, 104, 127, 104, 128], Err(2)),
    SetUp(&[61, 60, 61, 72, 61, 72], Err(2)),
    SetUp(&[60, 60, 60, 60, 60, 59], Err(2)),
    SetUp(&[60, 72, 48, 60, 200, 210], Err(2)),
    SetUp(&[200, 210, 200, 210, 200, 210], Err(2)),
    SetUp(&[48, 60, 47, 60, 48, 60], Err(3)),
    SetUp(&[48, 60, 48, 59, 48, 60], Err(3)),
    SetUp(&[48, 60, 55, 67, 54, 72], Err(3)),
    SetUp(&[48, 60, 55, 67, 60, 66], Err(3)),
    SetUp(&[48, 60, 48, 60, 48, 60, 48, 60, 48, 60, 47, 60], Err(3)),
    SetUp(&[48, 60, 48, 60, 48, 60, 48, 60, 48, 60, 48, 59], Err(3)),
];

// The bounds of a range, low and high.
fn bounds(range: &Range) -> [u8; 2] {
    [range.low.semitones(), range.high.semitones()]
}

// Whether the voices have exactly these bounds.
fn have(voices: &Voices, bytes: &[u8]) -> bool {
    let ranges = voices.ranges();
    let mut pairs = ranges.iter().zip(bytes.chunks(2));
    ranges.len() * 2 == bytes.len() && pairs.all(|(range, pair)| pair == bounds(range).as_slice())
}

// Whether the bytes are accepted with exactly their bounds, or refused with this number.
fn answers(bytes: &[u8], wanted: Result<(), u8>) -> bool {
    match (Voices::from_bytes(bytes), wanted) {
        (Ok(voices), Ok(())) => have(&voices, bytes),
        (Err(refusal), Err(number)) => refusal.notice().number == number,
        _ => false,
    }
}

#[test]
fn every_rule_of_the_ranges_holds_at_its_boundary(rt: HostRuntime) {
    for SetUp(bytes, wanted) in &SET_UPS {
        assert!(rt; answers(bytes, *wanted));
    }
}

#[test]
fn voices_that_were_never_set_up_are_three_from_48_to_72(rt: HostRuntime) {
    let voices = Voices::default();
    assert_eq!(rt; voices.ranges().len(), 3);
    for range in voices.ranges() {
        assert_eq!(rt; bounds(range), [48, 72]);
    }
}
