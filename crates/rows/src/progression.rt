// The rows of a chord progression, one chord after the other in a table of bytes.
ghost use Rattle.std.specs.Prelude.{◌≡◌, ◌*◌, ◌<◌, ◌≤◌, true, [], ◌++◌, length, drop, None, Ok, IfOk};
ghost use Rattle.std.specs.Result.{result_err};
ghost use Rattle.rows.specs.Tables.{counted, flat, refused_first, rows_for, rows_of_each, together, with_room, written};

use crate::search::find;
use crate::table::write;
use harmony::chord::Chord;
use harmony::refusal::Refusal;
use harmony::voices::Voices;

// The first condition that one of the chords meets: no row in any before too many rows in any.
fn accept(voices: &Voices, chords: &[Chord]) -> Result<(), Refusal>
    ensures { result_err result ≡ refused_first true (rows_of_each voices.now chords.now) }
{
    let mut answer = Ok(());
    for chord in chords {
        match find(voices, chord, &mut []) {
            Ok(0) => return Err(Refusal::NoRow),
            Ok(_) => {}
            Err(refusal) => answer = Err(refusal),
        }
    }
    answer
}

// How many rows a chord has that does not have too many.
fn rows_of(voices: &Voices, chord: &Chord) -> usize
    requires { length (rows_for voices.now chord.now) ≤ 256 }
    ensures { result ≡ length (rows_for voices.now chord.now) }
{
    find(voices, chord, &mut []).unwrap()
}

// How many rows the chords have together, where that many bytes hold them; none of the chords is refused.
fn add_up(voices: &Voices, chords: &[Chord], room: usize) -> Result<usize, Refusal>
    requires { refused_first true (rows_of_each voices.now chords.now) ≡ None }
    ensures answer { result ≡ with_room voices.now.count.number room (Ok (length (together (rows_of_each voices.now chords.now)))) }
    ensures fits { IfOk result (λ rows. rows * voices.now.count.number ≤ room) }
{
    let width = voices.count().number();
    let mut total = 0;
    // counted down, since the bytes of all rows might pass a machine number
    let mut free = room;
    for chord in chords {
        let rows = rows_of(voices, chord);
        if free < rows * width {
            return Err(Refusal::ShortRowTable);
        }
        free -= rows * width;
        total += rows;
    }
    Ok(total)
}

// Writes the rows of chords that are not refused, one after the other, to the front of a table that holds them.
fn fill(voices: &Voices, chords: &[Chord], table: &mut [u8], end: usize)
    requires accepted { refused_first true (rows_of_each voices.now chords.now) ≡ None }
    requires whole { end ≡ length (together (rows_of_each voices.now chords.now)) * voices.now.count.number }
    requires room { end ≤ length table.old }
    ensures { table.new ≡ flat (together (rows_of_each voices.now chords.now)) ++ drop end table.old }
{
    let width = voices.count().number();
    let mut from = 0;
    for chord in chords {
        // the middle part, behind the rows so far and before what is no one's, is handed on for each chord in turn
        let rows = write(voices, chord, &mut table[from..end]).unwrap();
        from += rows * width;
    }
}

// Writes the rows of each chord, one chord after the other without a gap, to the front of a row table, and answers how many they are.
pub fn write_all(voices: &Voices, chords: &[Chord], table: &mut [u8]) -> Result<usize, Refusal>
    ensures answer { result ≡ with_room voices.now.count.number (length table.old) (counted (rows_of_each voices.now chords.now)) }
    ensures table { table.new ≡ written voices.now.count.number (together (rows_of_each voices.now chords.now)) table.old result }
{
    accept(voices, chords)?;
    let rows = add_up(voices, chords, table.len())?;
    let end = rows * voices.count().number();
    fill(voices, chords, table, end);
    Ok(rows)
}
