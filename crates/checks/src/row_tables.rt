// Rows in tables: exact tables, tables that are too short, chords without rows and with too many.
use harmony::chord::Chord;
use harmony::refusal::Refusal;
use harmony::voices::Voices;
use rows::progression::write_all;
use rows::table::{count, write};
use std::test::Fail;

const THREE: &[u8] = &[48, 60, 55, 67, 60, 72];

const SIX_APART: &[u8] = &[24, 48, 36, 60, 48, 72, 60, 84, 72, 96, 84, 108];

fn chord(voices: &Voices, symbol: &[u8]) -> Result<Chord, Fail> {
    Ok(Chord::read(symbol, voices.count())?)
}

fn voices(bytes: &[u8]) -> Result<Voices, Fail> {
    Ok(Voices::from_bytes(bytes)?)
}

// What a call answered: the number of rows, or the number of its refusal.
fn answer(res: Result<usize, Refusal>) -> Result<usize, u8> {
    res.map_err(|refusal| refusal.notice().number)
}

#[test]
fn a_part_holds_the_rows_and_is_untouched_behind_them(rt: HostRuntime) -> Result<(), Fail> {
    let voices = voices(THREE)?;
    let c = chord(&voices, b"C")?;
    let mut exact = [7; 9];
    assert_eq!(rt; answer(write(&voices, &c, &mut exact)), Ok(3));
    assert_eq!(rt; exact, [48, 55, 64, 48, 64, 67, 60, 64, 67]);
    let mut wide = [7; 11];
    assert_eq!(rt; answer(write(&voices, &c, &mut wide)), Ok(3));
    assert_eq!(rt; wide, [48, 55, 64, 48, 64, 67, 60, 64, 67, 7, 7]);
    Ok(())
}

#[test]
fn a_short_part_is_refused_and_untouched(rt: HostRuntime) -> Result<(), Fail> {
    let voices = voices(THREE)?;
    let c = chord(&voices, b"C")?;
    let mut table = [7; 8];
    assert_eq!(rt; answer(write(&voices, &c, &mut table)), Err(14));
    assert_eq!(rt; table, [7; 8]);
    assert_eq!(rt; answer(write(&voices, &c, &mut [])), Err(14));
    Ok(())
}

#[test]
fn a_chord_without_rows_is_refused_and_writes_nothing(rt: HostRuntime) -> Result<(), Fail> {
    let narrow = voices(&[60; 6])?;
    let c = chord(&narrow, b"C")?;
    let mut table = [7; 9];
    assert_eq!(rt; answer(count(&narrow, &c)), Err(9));
    assert_eq!(rt; answer(write(&narrow, &c, &mut table)), Err(9));
    assert_eq!(rt; table, [7; 9]);
    // a chord of three voices has no row for six
    let wide = voices(SIX_APART)?;
    assert_eq!(rt; answer(count(&wide, &c)), Err(9));
    Ok(())
}

#[test]
fn a_chord_with_too_many_rows_is_refused_and_writes_nothing(rt: HostRuntime) -> Result<(), Fail> {
    let wide = voices(SIX_APART)?;
    let c7 = chord(&wide, b"C7")?;
    let mut table = [7; 9];
    assert_eq!(rt; answer(count(&wide, &c7)), Err(10));
    assert_eq!(rt; answer(write(&wide, &c7, &mut table)), Err(10));
    assert_eq!(rt; table, [7; 9]);
    Ok(())
}

#[test]
fn six_wide_voices_answer_at_once(rt: HostRuntime) -> Result<(), Fail> {
    let voices = voices(&[48, 72, 48, 72, 48, 72, 48, 72, 48, 72, 48, 72])?;
    assert_eq!(rt; answer(count(&voices, &chord(&voices, b"C7")?)), Ok(38));
    Ok(())
}

#[test]
fn chords_follow_one_another_without_a_gap(rt: HostRuntime) -> Result<(), Fail> {
    let voices = voices(THREE)?;
    let chords = [chord(&voices, b"C")?, chord(&voices, b"C/E")?];
    let mut table = [7; 22];
    assert_eq!(rt; answer(write_all(&voices, &chords, &mut table)), Ok(7));
    assert_eq!(rt;
        table,
        [
            48, 55, 64, 48, 64, 67, 60, 64, 67, 52, 55, 60, 52, 55, 72, 52, 60, 67, 52, 67, 72, 7,
        ]
    );
    assert_eq!(rt; answer(write_all(&voices, &[], &mut table)), Ok(0));
    Ok(())
}

#[test]
fn chords_that_do_not_fit_leave_the_table_untouched(rt: HostRuntime) -> Result<(), Fail> {
    let voices = voices(THREE)?;
    let chords = [chord(&voices, b"C")?, chord(&voices, b"C/E")?];
    let mut table = [7; 20];
    assert_eq!(rt; answer(write_all(&voices, &chords, &mut table)), Err(14));
    assert_eq!(rt; table, [7; 20]);
    Ok(())
}

#[test]
fn a_chord_without_rows_is_refused_before_one_with_too_many(rt: HostRuntime) -> Result<(), Fail> {
    let three = voices(THREE)?;
    let wide = voices(SIX_APART)?;
    let (many, none) = (chord(&wide, b"C7")?, chord(&three, b"C")?);
    let mut table = [7; 4];
    assert_eq!(rt; answer(write_all(&wide, &[many, none], &mut table)), Err(9));
    assert_eq!(rt;
        answer(write_all(&wide, &[many, many], &mut table)),
        Err(10)
    );
    assert_eq!(rt; table, [7; 4]);
    Ok(())
}
