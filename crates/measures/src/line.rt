// The room of a figure line.
ghost use Rattle.std.specs.Prelude.{◌≡◌, [], ◌∷◌, length};
ghost use Rattle.measures.specs.Parts.{left, told};

use harmony::refusal::Refusal;

// How many numbers a line of this length has left behind that many figures. The `fit` of a measure of its own is this call with its width, and nothing to share.
pub fn left_behind(width: usize, length: usize) -> Result<usize, Refusal>
    ensures { result ≡ left width length }
{
    length.checked_sub(width).ok_or(Refusal::ShortFigureLine)
}

// Writes a lone figure to the front of a line, and answers how many numbers are left behind it.
pub fn tell_figure(figure: u32, line: &mut [u32]) -> Result<usize, Refusal>
    ensures answer { result ≡ left 1 (length line.old) }
    ensures line { line.new ≡ told 1 (figure ∷ []) line.old }
{
    let (first, behind) = line.split_first_mut().ok_or(Refusal::ShortFigureLine)?;
    *first = figure;
    Ok(behind.len())
}
