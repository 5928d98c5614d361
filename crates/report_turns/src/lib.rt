//! What programs write of a text that a call makes, and what `settle` does next. The programs themselves read and hand over; whatever is decided on the way is
//! decided here.
//! What each function gives stands in the crate `output`.
#![tactic(auto)]

ghost use Rattle.std.specs.Prelude.{◌≡◌, take};
ghost use Rattle.output.specs.Program.{written_part, after_opening, after_piece};

mod texts;

use output::{Report, Written};
pub use texts::write_text;

// The job after which no further piece begins.
const LAST_PIECE: u32 = (Report::MOST_JOBS - Report::PIECE_JOBS) as u32;

// So many bytes at the front of a buffer, or all of it where it has fewer.
fn front(out: &[u8], count: u32) -> &[u8]
    ensures { result.now ≡ take count out.now }
{
    let end = count as usize;
    let size = out.len();
    if size < end {
        return &out[0..size];
    }
    &out[0..end]
}

// The bytes that a call wrote to its buffer.
pub fn written_part(written: Written, out: &[u8]) -> &[u8]
    ensures { result.now ≡ written_part written out.now }
{
    match written {
        Written::Short => front(out, 0),
        Written::Bytes(count) => front(out, count),
        Written::Last(count) => front(out, count),
    }
}

// After the first line, if all of it could be written: the first piece, unless nothing is to follow.
pub fn after_opening(written: Written, is_written: bool) -> Option<u32>
    ensures { result ≡ after_opening is_written written }
{
    if !is_written {
        return None;
    }
    match written {
        Written::Short => None,
        Written::Bytes(_) => Some(1),
        Written::Last(_) => None,
    }
}

// After the piece from job `first` on, of which `size` bytes could be read: the next one, if the text could be written, the piece was full, and not all jobs
// that are read are done.
pub fn after_piece(first: u32, size: usize, is_written: bool) -> Option<u32>
    ensures { result ≡ after_piece is_written first size }
{
    if !is_written {
        return None;
    }
    if size < Report::PIECE_LINES {
        return None;
    }
    if LAST_PIECE < first {
        return None;
    }
    Some(first + Report::PIECE_JOBS as u32)
}
