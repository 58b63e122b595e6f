// What a measure of movement is: what moves cost, the two traits with their laws, what these say of lists of moves, and the pair of any two measures.
// It knows moves, figures and costs, and nothing of classes, chords, rows or boards.
#![tactic(auto)]

pub mod content;
pub mod costs;
pub mod figures;
pub mod laws;
pub mod line;
pub mod measure;
pub mod pair;
pub mod strict;
pub mod total;
