//! The first line of a program's output, written to a lent part of just its size. Definitions and limits are those of the crate `output`.
#![tactic(auto)]

ghost use Rattle.std.specs.Prelude.{◌≡◌, length};
ghost use Rattle.sheet.specs.Rows.{answer};
ghost use Rattle.output.specs.Limits.{opening_bytes};
ghost use Rattle.output.specs.Output.{first_line};

use output::Report;
use sheet::Sheet;

// The first line: 0, a number, its place, and h.
pub fn write_first_line(out: &mut [u8], number: u8, place: u16, h: usize)
    requires { length out.old ≡ opening_bytes }
    ensures { out.new ≡ first_line (answer number place) h }
{
    let end = Report::FOUR_FIELDS;
    fields::write_four(
        &mut out[..end],
        Sheet::FIELD_WIDTH,
        0,
        number as u64,
        place as u64,
        h as u64,
    );
    out[end] = Sheet::LINE_END;
}
