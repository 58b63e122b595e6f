// The cost of a count table.
ghost use Rattle.std.specs.Prelude.{◌≡◌, length};

// How many counts a table has: one for each size of a move but 0.
pub const WIDTH: usize = 24;

// How many moves there are of 24 semitones, of 23, down to 1, and how many in all. Each measure has a record of its own, so that the fields say what they hold.
#[derive(Clone, Copy, Debug, PartialEq, Eq, Hash)]
pub struct TableCost {
    pub counts: [u16; WIDTH],
    pub moves: u16,
    ghost whole: { length counts ≡ 24 },
}
