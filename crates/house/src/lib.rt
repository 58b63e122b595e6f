// The measures of the house: sum, squares, largest and count table, and the letters that name them and the pair in text.
// It knows no more of a measure than what every measure shows.
#![tactic(auto)]

pub mod largest;
pub mod named;
pub mod table;
pub mod weighed;
pub mod weight;
