// The tokens of a body, with their places.
use text::reader::Reader;
use text::token::Token;

const BODY: &[u8] = b"head C  C/E|G7\n||\xc3\x00\tx |";

const TOKENS: [Token<'static>; 8] = [
    Token::Symbol { bytes: b"C", at: 5 },
    Token::Symbol {
        bytes: b"C/E",
        at: 8,
    },
    Token::Bar(11),
    Token::Symbol {
        bytes: b"G7",
        at: 12,
    },
    Token::Bar(15),
    Token::Bar(16),
    Token::Symbol {
        bytes: b"\xc3\x00\tx",
        at: 17,
    },
    Token::Bar(22),
];

#[test]
fn every_token_comes_once_and_in_its_place(rt: HostRuntime) {
    let mut reader = Reader::new(BODY, 4);
    for token in &TOKENS {
        assert_eq!(rt; reader.next(), Some(*token));
    }
    assert_eq!(rt; reader.next(), None);
    assert_eq!(rt; reader.next(), None);
}

#[test]
fn a_reader_from_behind_the_end_reads_nothing(rt: HostRuntime) {
    assert_eq!(rt; Reader::new(BODY, BODY.len()).next(), None);
    assert_eq!(rt; Reader::new(BODY, usize::MAX).next(), None);
    assert_eq!(rt; Reader::new(b" \n ", 0).next(), None);
}
