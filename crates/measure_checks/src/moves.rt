// Adding up to the most moves, and numbers that are no moves.
use harmony::moves::Move;
use harmony::pitch::Pitch;
use house::largest::Largest;
use house::named::{HouseMeasure, SUM_THEN_LARGEST};
use house::table::CountTable;
use house::weighed::{SQUARES, SUM};
use measures::measure::Measure;
use std::process::Abort;

// What a cost tells into a line of zeros, as far as two figures go, and how many moves it holds.
#[derive(Clone, Copy, Debug, PartialEq, Eq)]
struct Content {
    figures: [u32; 2],
    moves: u16,
}

// What a cost tells, or the number of the refusal.
fn told<M: Measure>(measure: &M, cost: &M::Cost) -> Result<Content, u8> {
    let mut line = [0; 24];
    measure
        .tell(cost, &mut line)
        .map_err(|refusal| refusal.notice().number)?;
    Ok(Content {
        figures: [line[0], line[1]],
        moves: measure.count(cost),
    })
}

// Adds the widest move 378 times, and once more.
fn fill<M: Measure>(rt: &impl Abort, measure: &M, figures: [u32; 2]) {
    let mut cost = measure.start();
    let none = Content {
        figures: [0, 0],
        moves: 0,
    };
    assert_eq!(rt; told(measure, &cost), Ok(none));
    for _ in 0..377 {
        measure.add(&mut cost, 24);
    }
    assert_eq!(rt; measure.count(&cost), 377);
    let full = Content {
        figures,
        moves: 378,
    };
    measure.add(&mut cost, 24);
    assert_eq!(rt; told(measure, &cost), Ok(full));
    measure.add(&mut cost, 24);
    assert_eq!(rt; told(measure, &cost), Ok(full));
}

#[test]
fn a_cost_takes_378_moves_and_no_more(rt: HostRuntime) {
    fill(&rt, &SUM, [9072, 0]);
    fill(&rt, &SQUARES, [217728, 0]);
    fill(&rt, &Largest, [24, 0]);
    fill(&rt, &CountTable, [378, 0]);
    fill(&rt, &SUM_THEN_LARGEST, [9072, 24]);
}

// Adds 25 and 255, which are no moves, and 24, which is one.
fn widen<M: Measure>(rt: &impl Abort, measure: &M, figures: [u32; 2]) {
    let mut cost = measure.start();
    measure.add(&mut cost, 25);
    measure.add(&mut cost, 255);
    let none = Content {
        figures: [0, 0],
        moves: 0,
    };
    assert_eq!(rt; told(measure, &cost), Ok(none));
    measure.add(&mut cost, 24);
    assert_eq!(rt; told(measure, &cost), Ok(Content { figures, moves: 1 }));
    measure.add(&mut cost, 0);
    assert_eq!(rt; told(measure, &cost), Ok(Content { figures, moves: 2 }));
}

#[test]
fn a_number_above_24_is_no_move(rt: HostRuntime) {
    widen(&rt, &SUM, [24, 0]);
    widen(&rt, &SQUARES, [576, 0]);
    widen(&rt, &Largest, [24, 0]);
    widen(&rt, &CountTable, [1, 0]);
    widen(&rt, &SUM_THEN_LARGEST, [24, 24]);
}

// The semitones between two pitches; none where that is no move.
fn between(from: u8, to: u8) -> Option<u8> {
    Some(Move::between(Pitch::new(from)?, Pitch::new(to)?)?.semitones())
}

#[test]
fn a_move_is_the_distance_up_to_24(rt: HostRuntime) {
    assert_eq!(rt; between(60, 60), Some(0));
    assert_eq!(rt; between(48, 72), Some(24));
    assert_eq!(rt; between(72, 48), Some(24));
    assert_eq!(rt; between(48, 73), None);
    assert_eq!(rt; between(127, 0), None);
    assert_eq!(rt; between(127, 103), Some(24));
}

// The measure's constant, read where the measure is known by its trait alone.
fn constant<M: Measure>(_measure: &M) -> u8 {
    M::LETTER
}

#[test]
fn every_constant_is_the_letter(rt: HostRuntime) {
    assert_eq!(rt; constant(&SUM), b'S');
    assert_eq!(rt; constant(&SQUARES), b'Q');
    assert_eq!(rt; constant(&Largest), b'L');
    assert_eq!(rt; constant(&CountTable), b'M');
    assert_eq!(rt; constant(&SUM_THEN_LARGEST), b'P');
}

#[test]
fn every_letter_names_its_measure(rt: HostRuntime) {
    for letter in 0..=255 {
        match HouseMeasure::try_from(letter) {
            Ok(house) => assert!(rt; house.letter() == letter && b"LMPQS".contains(&letter)),
            Err(_) => assert!(rt; !b"LMPQS".contains(&letter)),
        }
    }
}
