// A chart's text: the tokens of its body, the line of ranges, and the most bytes that a chart may have.
// It knows nothing of rows, plans or boards.
#![tactic(auto)]

pub mod limit;
mod numeral;
mod place;
pub mod range_line;
pub mod reader;
pub mod token;
