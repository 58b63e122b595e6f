// Times a loop of pushes and compares under each measure of the house. Standard input has the number of rounds; without one it times nothing. `scripts/compare-pace` runs it beside the same loop in plain Rust.
#![tactic(auto)]

use harmony::moves::Move;
use house::largest::Largest;
use house::named::SUM_THEN_LARGEST;
use house::table::CountTable;
use house::weighed::{SQUARES, SUM};
use measures::measure::Measure;
use std::io;
use std::time::Instant;

// How many moves a round has: a thousand of six voices.
const MOVES: usize = 6000;

// Keeps the lesser of two costs.
fn keep<M: Measure>(measure: &M, best: &mut M::Cost, cost: &M::Cost) {
    if measure.compare(cost, best).is_lt() {
        *best = *cost;
    }
}

// The least cost of six moves behind the moves so far, over all rounds.
fn least<M: Measure>(measure: &M, moves: &[Move], rounds: usize) -> M::Cost {
    let mut best = measure.start();
    for _ in 0..24 {
        measure.push(&mut best, Move::WIDEST);
    }
    let mut so_far = measure.start();
    for _ in 0..rounds {
        for six in moves.chunks(6) {
            let mut cost = so_far;
            for by in six {
                measure.push(&mut cost, *by);
            }
            keep(measure, &mut best, &cost);
        }
        so_far = best;
    }
    best
}

// Times the rounds under a measure, and prints its letter, the microseconds and the first figure.
fn time<M: Measure>(
    rt: &HostRuntime,
    measure: &M,
    moves: &[Move],
    rounds: usize,
) -> io::Result<()> {
    let start = Instant::now(rt)?;
    let best = least(measure, moves, rounds);
    let micros = start.elapsed(rt)?.as_micros();
    let mut line = [0; 24];
    // The figures of each measure here find room. A second way out for a refusal was tried: it moves the loops in the program, and M then takes a third longer.
    let _ = measure.tell(&best, &mut line);
    let letter = char::from(M::LETTER);
    let figure = line[0];
    println!(rt; "{letter} {micros} {figure}")
}

// Moves of 0 to 12 in an order that does not repeat soon.
fn scatter(moves: &mut [Move]) {
    let mut seed: u32 = 1;
    for slot in moves {
        seed = seed.wrapping_mul(1103515245).wrapping_add(12345);
        if let Some(by) = u8::try_from((seed / 65536) % 13).ok().and_then(Move::new) {
            *slot = by;
        }
    }
}

fn main(rt: HostRuntime) -> io::Result<()> {
    let mut text = String::new(rt.alloc());
    rt.read_line(&mut text)?;
    let Ok(rounds) = text.trim().parse::<usize>() else {
        return Ok(());
    };
    let mut moves = [Move::WIDEST; MOVES];
    scatter(&mut moves);
    time(&rt, &SUM, &moves, rounds)?;
    time(&rt, &SQUARES, &moves, rounds)?;
    time(&rt, &Largest, &moves, rounds)?;
    time(&rt, &CountTable, &moves, rounds)?;
    time(&rt, &SUM_THEN_LARGEST, &moves, rounds)
}
