// A reader of a text's tokens, one after the other.
// Symbols are parted by spaces, line feeds and bar marks; every other byte belongs to a symbol.
ghost use Rattle.std.specs.Prelude.{◌≡◌, ℕ, ◌≤◌, Bool, min, length, drop};
ghost use Rattle.std.specs.List.{prefix_len};
ghost use Rattle.text.specs.Tokens.{blank, in_symbol, left_from};

use crate::token::Token;

// The text, and the offset of the first byte not yet read. No model: a type that is copied and has a lifetime can have none.
#[derive(Clone, Copy, Debug)]
pub struct Reader<'a> {
    text: &'a [u8],
    pos: usize,
    ghost within: { pos ≤ length text.now },
}

// Whether the byte is a space or a line feed.
fn is_blank(byte: u8) -> bool
    ensures { result ≡ blank byte }
{
    matches!(byte, b' ' | b'\n')
}

// Whether the byte belongs to a symbol.
fn is_in_symbol(byte: u8) -> bool
    ensures { result ≡ in_symbol byte }
{
    !matches!(byte, b' ' | b'\n' | b'|')
}

// How many bytes at the front pass the test.
fn run_len<F: Fn(u8) -> bool>(bytes: &[u8], test: F) -> usize
    requires { F.IsAlwaysCallable test }
    ensures within { result ≤ length bytes.now }
    ensures run { (p : ℕ → Bool) → ((b : ℕ) (r : Bool) → F.post test b r → r ≡ p b) → result ≡ prefix_len p bytes.now }
{
    bytes.iter().take_while(|b| test(**b)).count()
}

impl<'a> Reader<'a> {
    // A reader of the text from that offset on; from behind the end it reads nothing.
    pub fn new(text: &'a [u8], from: usize) -> Reader<'a>
        ensures text { result.text.now ≡ text.now }
        ensures from { result.pos ≡ min from (length text.now) }
        ensures left { left_from text.now result.pos ≡ left_from text.now from }
    {
        let pos = from.min(text.len());
        Reader { text, pos }
    }

    // The bytes not yet read.
    fn rest(&self) -> &'a [u8]
        ensures { result.now ≡ drop self.now.pos self.now.text.now }
    {
        &self.text[self.pos..]
    }
}

impl<'a> Iterator for Reader<'a> {
    ghost use Rattle.std.specs.Iterator.{item_count};
    ghost use Rattle.text.specs.Readers.{GivesNext, left};

    type Item = Token<'a>;

    ghost next_gives = { GivesNext };

    ghost remaining = { item_count left };

    fn next(&mut self) -> Option<Token<'a>> {
        self.pos += run_len(self.rest(), is_blank);
        let rest = self.rest();
        let at = self.pos;
        match rest {
            [] => None,
            [b'|', ..] => {
                self.pos += 1;
                Some(Token::Bar(at))
            }
            _ => {
                let len = run_len(rest, is_in_symbol);
                self.pos += len;
                Some(Token::Symbol {
                    bytes: &rest[..len],
                    at,
                })
            }
        }
    }
}
