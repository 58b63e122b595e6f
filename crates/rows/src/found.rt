// The rows found so far, put into a table one behind the other.
ghost use Rattle.std.specs.Prelude.{◌≡◌, ◌≤◌, [], ◌∷◌, length, OnErr};
ghost use Rattle.harmony.specs.Results.{result_map};
ghost use Rattle.rows.specs.Arrangements.{semitones_of};
ghost use Rattle.rows.specs.Growth.{Completed, placed};

use crate::row::Row;
use harmony::refusal::Refusal;

// The most rows that a chord may have.
pub const MOST_ROWS: usize = 256;

// How many rows were found, and the table that holds those that it has room for.
// Each call that takes it says that it lends the same table still, as the language asks where a type keeps a `&mut`.
#[derive(Drop)]
pub(crate) struct Found<'t> {
    pub(crate) table: &'t mut [u8],
    pub(crate) rows: usize,
    ghost few: { rows ≤ 256 },
}

impl Found<'_> {
    // One row more; past the most rows there is none.
    pub(crate) fn push(&mut self, row: &Row) -> Result<(), Refusal>
        ensures same { self.new.table.ghost_name ≡ self.old.table.ghost_name }
        ensures found { Completed (length row.now.ranges.now) self.old.rows (semitones_of (length row.now.ranges.now) row.now.pitches ∷ []) self.old.table.now self.new.table.now (result_map (λ _. self.new.rows) result) }
        ensures stays { OnErr result ((self.new.rows ≡ self.old.rows) × (self.new.table.now ≡ self.old.table.now)) }
    {
        if self.rows >= MOST_ROWS {
            return Err(Refusal::TooManyRows);
        }
        self.place(row);
        self.rows += 1;
        Ok(())
    }

    // Puts a row behind the others, where the table has room for it.
    fn place(&mut self, row: &Row)
        ensures same { self.new.table.ghost_name ≡ self.old.table.ghost_name }
        ensures rows { self.new.rows ≡ self.old.rows }
        ensures table { self.new.table.now ≡ placed (length row.now.ranges.now) self.old.table.now self.old.rows (semitones_of (length row.now.ranges.now) row.now.pitches) }
    {
        let width = row.ranges.len();
        let from = self.rows * width;
        if from + width <= self.table.len() {
            row.write(&mut self.table[from..from + width]).unwrap();
        }
    }
}
