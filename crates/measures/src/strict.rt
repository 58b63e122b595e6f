// Costs under which a lesser one stays the less.
ghost use Rattle.measures.specs.Laws.{StrictLaws};

use crate::costs::Costs;

// It stands on its own, so that a pair can ask for it alone: all laws, and no letter.
pub trait StrictMeasure: Costs {
    ghost lawful: { (m : Self) → StrictLaws (Self.reading m) };
}
