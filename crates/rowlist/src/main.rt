// Lists the rows of chord symbols: a line of ranges and then symbols from standard input, their rows to standard output.
#![tactic(auto)]

mod heading;
mod input;
mod listing;

use harmony::voices::Voices;
use heading::{Heading, read_heading};
use input::fill;
use listing::{add_row, find_rows};
use std::fmt::Write as _;
use std::io;
use std::io::Write;
use text::limit::CHART_LIMIT;
use text::reader::Reader;
use text::token::Token;

// One byte more than a chart may have, to tell that one is too long.
const MOST_READ: usize = CHART_LIMIT + 1;

// The most bytes that the rows of a chord take: 256 rows of six pitches. They and the input lie on the stack, so that a chart is read and refused without heap.
const MOST_BYTES: usize = 1536;

// Prints a symbol with its number of rows and each row, or with its refusal.
fn list(rt: &(impl Print + AllocGlobal), voices: &Voices, symbol: &[u8]) -> io::Result<()> {
    let mut table = [0; MOST_BYTES];
    let mut page = String::new(rt.alloc());
    match find_rows(voices, symbol, &mut table) {
        Ok(rows) => {
            writeln!(page, " {rows}")?;
            for row in table.chunks(voices.count().number()).take(rows) {
                add_row(&mut page, row)?;
            }
        }
        Err(refusal) => writeln!(page, " refused {}", refusal.notice().number)?,
    }
    let mut out = io::writer(rt);
    out.write_all(symbol)?;
    out.write_all(page.as_bytes())
}

// Lists the rows of each symbol of a chart's body.
fn list_body(rt: &(impl Print + AllocGlobal), heading: &Heading) -> io::Result<()> {
    for token in Reader::new(heading.body, 0) {
        if let Token::Symbol { bytes, .. } = token {
            list(rt, &heading.voices, bytes)?;
        }
    }
    Ok(())
}

fn main(rt: HostRuntime) -> io::Result<()> {
    let mut buffer = [0; MOST_READ];
    let length = fill(&mut rt.stdin(), &mut buffer)?;
    match read_heading(&buffer[..length]) {
        Ok(heading) => list_body(&rt, &heading),
        Err(refusal) => println!(rt; "refused {} at 0", refusal.notice().number),
    }
}
