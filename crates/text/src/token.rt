// The tokens of a chart's body.

// A bar mark with its place, or a symbol with its bytes, borrowed from the text, and its place.
// A place is the offset of the first byte in the whole text.
#[derive(Clone, Copy, Debug, PartialEq, Eq)]
pub enum Token<'a> {
    Bar(usize),
    Symbol { bytes: &'a [u8], at: usize },
}
