//! What programs print of a record: its sheet, or under a refusal the number and place. The program `write_net` prints a sheet in the agreed order.
#![tactic(auto)]

ghost use Rattle.std.specs.Prelude.{◌≡◌, ◌≤◌, length};
ghost use Rattle.sheet.specs.Limits.{most_bytes};
ghost use Rattle.output.specs.Calls.{report};
ghost use Rattle.output.specs.Output.{first_line};
ghost use Rattle.writer_text.specs.Text.{GivesRecord, whole_report, report_of, own_report_of};

use output::{Report, Written};
use sheet::{Answer, Reading, Sheet};

// The line of a refusal, to the front of a buffer with room for any sheet.
fn refusal_text(answer: Answer, out: &mut [u8]) -> Written
    requires { most_bytes ≤ length out.old }
    ensures { report result out.new ≡ whole_report (first_line answer 0) out.old }
{
    let end = Report::OPENING_BYTES;
    line_numbers::write_first_line(&mut out[..end], answer.number, answer.place, 0);
    Written::Last(end as u32)
}

// The text of `write_net` for the bytes of a sheet, to the front of a buffer with room for any sheet.
pub fn text<'a, 'b>(sheet: &'a [u8], out: &'b mut [u8]) -> Written
    ensures { report result out.new ≡ report_of sheet.now out.old }
{
    if out.len() < Sheet::MOST_BYTES {
        return Written::Short;
    }
    let reading = reader::read(sheet);
    let answer = reading.answer;
    if answer.number != 0 {
        return refusal_text(answer, out);
    }
    let net = reading.net;
    let written = writer_sheet::write(net, out);
    Written::Last(written.length)
}

// The text for a reading, in the record's own order, to the front of a buffer with room for any sheet.
pub fn own_text(reading: Reading, out: &mut [u8]) -> Written
    requires { GivesRecord reading × (most_bytes ≤ length out.old) }
    ensures { report result out.new ≡ own_report_of reading out.old }
{
    let answer = reading.answer;
    let number = answer.number;
    if number == 0 {
        let net = reading.net;
        let written = writer_sheet::write_in_own_order(net, out);
        return Written::Last(written.length);
    }
    refusal_text(answer, out)
}
