// What the moves of a line cost, as text.
ghost use Rattle.std.specs.Prelude.{◌≡◌, ◌++◌, string_bytes, OnOk};
ghost use Rattle.costlist.specs.CostLines.{cost_line, spaced};

use house::named::HouseMeasure;
use std::fmt::Write;
use std::io;

// The most figures that a cost has: room on the stack, so that a line takes no heap for them.
const MOST_FIGURES: usize = 24;

// Adds what these numbers cost to a page, on a line of its own.
pub fn add_cost(page: &mut String, measure: HouseMeasure, numbers: &[u8]) -> io::Result<()>
    ensures { OnOk result (string_bytes page.new ≡ string_bytes page.old ++ cost_line measure numbers.now) }
{
    let mut line = [0; MOST_FIGURES];
    let moves = measure.tell(numbers, &mut line).unwrap();
    write!(page, "{measure} moves {moves} figures")?;
    add_figures(page, &line[..measure.width()])?;
    page.push('\n')?;
    Ok(())
}

// Adds figures to a page, a space before each.
fn add_figures(page: &mut String, figures: &[u32]) -> io::Result<()>
    ensures { OnOk result (string_bytes page.new ≡ string_bytes page.old ++ spaced figures.now) }
{
    for figure in figures {
        write!(page, " {figure}")?;
    }
    Ok(())
}
