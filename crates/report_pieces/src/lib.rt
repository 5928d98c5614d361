//! The lines of the jobs of a piece, as a call. What it writes stands in the crate `output`.
#![tactic(auto)]

mod job_lines;
mod line_vectors;
mod pieces;

ghost use Rattle.std.specs.Prelude.{◌≡◌};
ghost use Rattle.output.specs.Calls.{report, piece_of};

use output::{Report, Written};

// The lines of the jobs of a piece whose first job has this number.
pub fn piece<'a, 'b>(sheet: &'a [u8], first: u32, lines: &'a [u8], out: &'b mut [u8]) -> Written
    ensures { report result out.new ≡ piece_of sheet.now first lines.now out.old }
{
    if out.len() < Report::PIECE_BYTES {
        return Written::Short;
    }
    let reading = reader::read(sheet);
    let read = reading.answer;
    if read.number != 0 {
        return Written::Bytes(0);
    }
    let net = reading.net;
    let readable = pieces::read_lines(first, lines);
    Written::Bytes(pieces::write(net, first, readable, out))
}
