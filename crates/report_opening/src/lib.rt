//! What a sheet is judged to be, and the first line of the program's text, as calls. What each gives stands in the crate `output`.
#![tactic(auto)]

ghost use Rattle.std.specs.Prelude.{◌≡◌};
ghost use Rattle.output.specs.Limits.{opening_bytes};
ghost use Rattle.output.specs.Output.{judged_of, goes_on};
ghost use Rattle.output.specs.Calls.{report, opening_says, opening_of};

use output::{Judged, Report, Written};
use sheet::Answer;

// What a sheet is judged to be: the reader's number, or else the verdict with h.
pub fn judge(sheet: &[u8]) -> Judged
    ensures { result ≡ judged_of sheet.now }
{
    let reading = reader::read(sheet);
    let read = reading.answer;
    if read.number != 0 {
        return Judged {
            answer: read,
            keys: 0,
        };
    }
    let net = reading.net;
    let judged = verdict::verdict(net);
    let h = graph::key_count(net);
    Judged {
        answer: judged,
        keys: h as u32,
    }
}

// Are the jobs run after a number?
fn goes_on(number: u8) -> bool
    ensures { result ≡ goes_on number }
{
    matches!(number, 0 | Answer::BREAKS_C2 | Answer::BREAKS_C3)
}

// What is said of the first line: after some numbers nothing follows it.
fn said(number: u8) -> Written
    ensures { result ≡ opening_says number opening_bytes }
{
    if goes_on(number) {
        return Written::Bytes(Report::OPENING_BYTES as u32);
    }
    Written::Last(Report::OPENING_BYTES as u32)
}

// The first line of a sheet.
pub fn opening<'a, 'b>(sheet: &'a [u8], out: &'b mut [u8]) -> Written
    ensures { report result out.new ≡ opening_of sheet.now out.old }
{
    if out.len() < Report::OPENING_BYTES {
        return Written::Short;
    }
    let judged = judge(sheet);
    let answer = judged.answer;
    line_numbers::write_first_line(
        &mut out[..Report::OPENING_BYTES],
        answer.number,
        answer.place,
        judged.keys as usize,
    );
    said(answer.number)
}
