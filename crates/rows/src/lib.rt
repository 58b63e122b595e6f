// The rows of a chord: the type that keeps one, all of them in order, and how they are laid into a table of bytes.
// It knows nothing of measures, boards or chart text.
#![tactic(auto)]

mod climb;
mod found;
pub mod progression;
pub mod row;
mod search;
pub mod table;
