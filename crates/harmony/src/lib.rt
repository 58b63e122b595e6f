// Pitches and their classes, voice ranges, chords and the symbols that name them, and every refusal of the product.
// It knows nothing of rows, measures, boards or chart text.
#![tactic(auto)]

pub mod chord;
pub mod moves;
pub mod pitch;
pub mod quality;
pub mod range;
pub mod refusal;
pub mod symbol;
pub mod voices;
