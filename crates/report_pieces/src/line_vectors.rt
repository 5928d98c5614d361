//! Vectors as text: a character for each signal, or hyphens where a job is refused. Each is written to a lent part of just its size. Definitions and
//! limits are those of the crate `output`.

ghost use Rattle.std.specs.Prelude.{◌≡◌, cond, [], ◌∷◌, ◌++◌, ◌+◌, ◌*◌, ◌≤◌, eqb, length, drop};
ghost use Rattle.sheet.specs.Limits.{blank, line_end};
ghost use Rattle.output.specs.Limits.{hyphen};
ghost use Rattle.output.specs.Text as spec;

use output::Report;
use sheet::Sheet;

// A signal as a character: 0, 1, and X for any other byte.
fn character(signal: u8) -> u8
    ensures { result ≡ spec.character signal }
{
    if signal <= 1 {
        return Sheet::DIGIT_ZERO + signal;
    }
    Report::LETTER_X
}

// What stands for a signal of a job that has this number.
fn shown(number: u8, signal: u8) -> u8
    ensures { result ≡ cond (eqb number 0) (spec.character signal) hyphen }
{
    if number == 0 {
        return character(signal);
    }
    Report::HYPHEN
}

// As many signals of a vector as the part has bytes.
fn write_vector<'a, 'b>(out: &'a mut [u8], number: u8, vector: &'b [u8])
    requires { length out.old ≤ length vector.now }
    ensures { out.new ≡ spec.vector_text (length out.old) number vector.now }
{
    let h = out.len();
    // By places: what a `zip` of `iter_mut` wrote, no fact tells after the loop, and `enumerate` would index the other table all the same.
    for i in 0..h {
        out[i] = shown(number, vector[i]);
    }
}

// A job's r and its t, each after a blank, and the end of the line.
pub(crate) fn write_both<'a, 'b>(out: &'a mut [u8], h: usize, number: u8, own: &'b [u8])
    requires { (length out.old ≡ 2 * h + 3) × (length own.now ≡ 2 * h) }
    ensures { out.new ≡ blank ∷ (spec.vector_text h number own.now ++ blank ∷ (spec.vector_text h number (drop h own.now) ++ line_end ∷ [])) }
{
    let between = 1 + h;
    let second = between + 1;
    let end = second + h;
    out[0] = Sheet::BLANK;
    write_vector(&mut out[1..between], number, own);
    out[between] = Sheet::BLANK;
    write_vector(&mut out[second..end], number, &own[h..]);
    out[end] = Sheet::LINE_END;
}
