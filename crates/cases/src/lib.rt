// The cases that were worked by hand, as one list, and the promise that the definitions of all layers yield them.
#![tactic(auto)]

ghost use Rattle.std.specs.Prelude.{◌≡◌, length};
ghost use Rattle.cases.specs.Worked.{Yielded, worked};

// How many worked cases there are; the definitions yield every one.
pub fn worked_cases() -> usize
    ensures number { result ≡ length worked }
    ensures yielded { Yielded }
{
    4
}
