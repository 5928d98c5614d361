//! What the program `read_gates` prints: the sheet of the net that a gate sheet gives, in the record's own order, or the number and place of a refusal.
#![tactic(auto)]

ghost use Rattle.std.specs.Prelude.{◌≡◌};
ghost use Rattle.output.specs.Calls.{report};
ghost use Rattle.gates_text.specs.Text.{gate_report_of};

use output::Written;
use sheet::Sheet;

// The text for the bytes of a gate sheet, to the front of a buffer with room for any sheet.
pub fn text<'a, 'b>(sheet: &'a [u8], out: &'b mut [u8]) -> Written
    ensures { report result out.new ≡ gate_report_of sheet.now out.old }
{
    if out.len() < Sheet::MOST_BYTES {
        return Written::Short;
    }
    let reading = gates_reader::read(sheet);
    writer_text::own_text(reading, out)
}
