// The line of ranges: well formed or not, and what its ranges are refused for.
use harmony::refusal::Refusal;
use text::range_line::range_line;

// Of a well formed line the offset behind it, and whether its ranges are accepted or the number that they are refused with.
// Of a malformed one the number that it is refused with.
type Outcome = Result<(usize, Result<(), u8>), u8>;

// A text, and what comes of it.
struct Line(&'static [u8], Outcome);

const LINES: [Line; 30] = [
    Line(b"voices 48-60 55-67 60-72\nC", Ok((25, Ok(())))),
    Line(b"voices 048-060 055-067 60-72\n", Ok((29, Ok(())))),
    Line(b"voices 0-7 0-7 000-007\nvoices", Ok((23, Ok(())))),
    Line(b"voices\n", Ok((7, Err(1)))),
    Line(b"voices 48-60\n", Ok((13, Err(1)))),
    Line(b"voices 48-60 48-60\n", Ok((19, Err(1)))),
    Line(b"voices 1-2 1-2 1-2 1-2 1-2 1-2\n", Ok((31, Ok(())))),
    Line(b"voices 1-2 1-2 1-2 1-2 1-2 1-2 1-2\n", Ok((35, Err(1)))),
    Line(b"voices 304-310 304-310 304-310\n", Ok((31, Err(2)))),
    Line(b"voices 48-73 48-73 48-73\n", Ok((25, Err(2)))),
    Line(b"voices 999-999 0-0 0-0\n", Ok((23, Err(2)))),
    Line(b"voices 60-72 48-60 60-72\n", Ok((25, Err(3)))),
    Line(b"", Err(18)),
    Line(b"voices", Err(18)),
    Line(b"voice", Err(18)),
    Line(b"voices \n", Err(18)),
    Line(b"voices  48-60 55-67 60-72\n", Err(18)),
    Line(b"voices 48-60 55-67 60-72 \n", Err(18)),
    Line(b"voices 48-60 55-67 60-72", Err(18)),
    Line(b"voices 48-60 55-67 60-72\r\n", Err(18)),
    Line(b"voices 48-60 55-67 60-0072\n", Err(18)),
    Line(b"voices 0048-60 55-67 60-72\n", Err(18)),
    Line(b"voices 48-60 55-67 60-\n", Err(18)),
    Line(b"voices 48-60 55-67 -72\n", Err(18)),
    Line(b"voices 48-60 55-67 60\n", Err(18)),
    Line(b"voices 48--60 55-67 60-72\n", Err(18)),
    Line(b"voices +48-60 55-67 60-72\n", Err(18)),
    Line(b"Voices 48-60 55-67 60-72\n", Err(18)),
    Line(b" voices 48-60 55-67 60-72\n", Err(18)),
    Line(b"voices\t48-60 55-67 60-72\n", Err(18)),
];

fn number(refusal: Refusal) -> u8 {
    refusal.notice().number
}

fn outcome_of(text: &[u8]) -> Outcome {
    let line = range_line(text).map_err(number)?;
    Ok((line.end(), line.voices().map(|_| ()).map_err(number)))
}

#[test]
fn every_line_of_ranges_is_read_or_refused(rt: HostRuntime) {
    for Line(text, outcome) in &LINES {
        assert_eq!(rt; outcome_of(text), *outcome);
    }
}
