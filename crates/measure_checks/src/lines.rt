// Lines of figures: one too short, exact, and longer; and the order of costs.
use house::largest::Largest;
use house::named::{HouseMeasure, SUM_THEN_LARGEST};
use house::table::CountTable;
use house::weighed::{SQUARES, SUM};
use measures::measure::Measure;
use measures::total::total;
use std::cmp::Ordering;
use std::process::Abort;
use std::test::Fail;

// What is left of a line, or the number of the refusal, and what 26 sevens hold then.
#[derive(Clone, Copy, Debug, PartialEq, Eq)]
struct Written {
    left: Result<usize, u8>,
    line: [u32; 26],
}

// Tells the moves 3, 24, 1 and 1 into so many of 26 sevens; none where there are not so many, or where fit answers something else.
fn told<M: Measure>(measure: &M, length: usize) -> Option<Written> {
    let mut line = [7; 26];
    let cost = total(measure, &[3, 24, 1, 1]);
    let answer = measure.tell(&cost, line.get_mut(0..length)?);
    let left = answer.map_err(|refusal| refusal.notice().number);
    (answer == measure.fit(length)).then_some(Written { left, line })
}

// 26 sevens with these figures at their front.
fn behind(figures: &[u32]) -> [u32; 26] {
    let mut line = [7; 26];
    for (number, figure) in line.iter_mut().zip(figures) {
        *number = *figure;
    }
    line
}

// Tells into a line that is one too short, one that is just long enough, and one that is longer by one.
fn check_lines<M: Measure>(rt: &impl Abort, measure: &M, figures: &[u32]) -> Result<(), Fail> {
    let width = figures.len();
    if width < 1 || width > 24 {
        return Err(Fail::new("no such width"));
    }
    let line = [7; 26];
    let short = Written {
        left: Err(17),
        line,
    };
    assert_eq!(rt; told(measure, width - 1), Some(short));
    let line = behind(figures);
    let exact = Written { left: Ok(0), line };
    assert_eq!(rt; told(measure, width), Some(exact));
    let longer = Written { left: Ok(1), line };
    assert_eq!(rt; told(measure, width + 1), Some(longer));
    Ok(())
}

#[test]
fn a_line_has_room_for_the_figures_or_stays_as_it_was(rt: HostRuntime) -> Result<(), Fail> {
    check_lines(&rt, &SUM, &[29])?;
    check_lines(&rt, &SQUARES, &[587])?;
    check_lines(&rt, &Largest, &[24])?;
    check_lines(
        &rt,
        &CountTable,
        &[
            1, 0, 0, 0, 0, 0, 0, 0, 0, 0, 0, 0, 0, 0, 0, 0, 0, 0, 0, 0, 0, 1, 0, 2,
        ],
    )?;
    check_lines(&rt, &SUM_THEN_LARGEST, &[29, 24])
}

#[test]
fn a_table_tells_the_widest_moves_first(rt: HostRuntime) {
    let mut line = [7; 25];
    let moves = HouseMeasure::Table.tell(&[24, 5, 0, 5, 1, 30], &mut line);
    assert_eq!(rt; moves.ok(), Some(5));
    assert_eq!(rt;
        line,
        [
            1, 0, 0, 0, 0, 0, 0, 0, 0, 0, 0, 0, 0, 0, 0, 0, 0, 0, 0, 2, 0, 0, 0, 1, 7,
        ]
    );
}

// How the moves of one list compare with those of another.
fn compare<M: Measure>(measure: &M, one: &[u8], other: &[u8]) -> Ordering {
    measure.compare(&total(measure, one), &total(measure, other))
}

#[test]
fn the_first_figures_that_differ_decide(rt: HostRuntime) {
    assert_eq!(rt; compare(&SUM, &[3, 3, 3], &[4, 0, 0]), Ordering::Greater);
    assert_eq!(rt; compare(&SUM, &[], &[0]), Ordering::Equal);
    assert_eq!(rt; compare(&SQUARES, &[3, 3], &[0, 4]), Ordering::Greater);
    assert_eq!(rt; compare(&SQUARES, &[3, 4], &[5]), Ordering::Equal);
    assert_eq!(rt; compare(&Largest, &[3, 3, 3], &[4, 0, 0]), Ordering::Less);
    assert_eq!(rt; compare(&Largest, &[4, 4], &[4]), Ordering::Equal);
    assert_eq!(rt; compare(&CountTable, &[2, 2, 2, 2], &[3]), Ordering::Less);
    assert_eq!(rt; compare(&CountTable, &[5, 1], &[5]), Ordering::Greater);
    assert_eq!(rt;
        compare(&SUM_THEN_LARGEST, &[2, 2], &[1, 3]),
        Ordering::Less
    );
    assert_eq!(rt;
        compare(&SUM_THEN_LARGEST, &[2, 2], &[3]),
        Ordering::Greater
    );
}
