// What the laws shut out, and what they do not.
ghost use Rattle.std.specs.Prelude.{◌≡◌, length};
ghost use Rattle.measures.specs.Impostors.{Gives, all_equal, seeming};
ghost use Rattle.measures.specs.Laws.{Laws};
ghost use Rattle.measures.specs.Meanings.{Lawful};
ghost use Rattle.measures.specs.Readings.{Reading};
ghost use Rattle.std.specs.List.{AllByRecursion};

// How many orders of moves only seem to be measures: whatever record their costs are, the laws are false of each. Of a measure with all costs equal they are true.
pub fn impostors<C: Copy>() -> usize
    ensures number { result ≡ length seeming }
    ensures none { AllByRecursion (λ m. (r : Reading C) → Gives m r → Laws r → ⊥) seeming }
    ensures flat { Lawful all_equal }
{
    2
}
