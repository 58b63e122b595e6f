// The lines of one symbol: the rows of its chord, and a row as text.
ghost use Rattle.std.specs.Prelude.{◌≡◌, ◌++◌, length, string_bytes, OnOk};
ghost use Rattle.harmony.specs.Symbols.{chord_of};
ghost use Rattle.harmony.specs.VoiceRanges.{ranges_of};
ghost use Rattle.rowlist.specs.Listings.{answer_of, row_line, rows_named};
ghost use Rattle.rows.specs.Tables.{with_room, written};

use harmony::chord::Chord;
use harmony::refusal::Refusal;
use harmony::voices::Voices;
use rows::table::write;
use std::fmt::Write;
use std::io;

// Writes the rows of the chord that a symbol names to the front of a table, and answers how many they are.
pub fn find_rows(voices: &Voices, symbol: &[u8], table: &mut [u8]) -> Result<usize, Refusal>
    ensures answer { result ≡ with_room voices.now.count.number (length table.old) (answer_of voices.now symbol.now) }
    ensures table { table.new ≡ written voices.now.count.number (rows_named (ranges_of voices.now) (chord_of symbol.now voices.now.count.number)) table.old result }
{
    let chord = Chord::read(symbol, voices.count())?;
    write(voices, &chord, table)
}

// Adds a row to a page, on a line of its own, its pitches parted by spaces.
pub fn add_row(page: &mut String, row: &[u8]) -> io::Result<()>
    ensures { OnOk result (string_bytes page.new ≡ string_bytes page.old ++ row_line row.now) }
{
    if let Some((lowest, others)) = row.split_first() {
        write!(page, "{lowest}")?;
        for pitch in others {
            write!(page, " {pitch}")?;
        }
    }
    page.push('\n')?;
    Ok(())
}
