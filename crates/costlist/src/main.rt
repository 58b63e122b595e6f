// Prints what lists of moves cost: a line of standard input has a measure's letter and moves, parted by spaces, and its line of standard output has the letter, the number of moves and the figures.
#![tactic(auto)]

mod cost_line;
mod request;

use cost_line::add_cost;
use request::{RequestError, read_request};
use std::fmt::Write;
use std::io;

// Adds the cost that a line of input asks for, or why there is none.
fn add_line(rt: &HostRuntime, page: &mut String, text: &str) -> io::Result<()> {
    match read_request(rt.alloc(), text) {
        Ok(request) => add_cost(page, request.measure, &request.numbers),
        Err(RequestError::OutOfMemory(error)) => Err(error.into()),
        Err(error) => {
            writeln!(page, "{error}")?;
            Ok(())
        }
    }
}

fn main(rt: HostRuntime) -> io::Result<()> {
    let mut page = String::new(rt.alloc());
    for line in rt.lines(rt.alloc()) {
        add_line(&rt, &mut page, &line?)?;
    }
    rt.print(page)
}
