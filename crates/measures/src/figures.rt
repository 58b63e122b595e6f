// Lines of figures, as they are printed.
ghost use Rattle.std.specs.Prelude.{◌≡◌};
ghost use Rattle.measures.specs.Figures.{OrderMeans, order};

use std::cmp::Ordering;

// Which of two lines of figures is the less: the one with the lower figure at the first place where they differ.
pub fn compare_lines(one: &[u32], other: &[u32]) -> Ordering
    ensures order { result ≡ order one.now other.now }
    ensures means { OrderMeans one.now other.now }
{
    one.cmp(other)
}
