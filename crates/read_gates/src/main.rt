//! The program: reads the file `gates` of the folder it is run in, and writes the sheet of the net that its gates make, or the number and place of its first
//! fault. What it writes is made by the crate `gates_text`; here is only the reading and the writing.
#![tactic(auto)]

use gates::GateSheet;
use sheet::Sheet;

// One byte more than a gate sheet may have, so that a longer file is still refused for its length.
const SHEET_BYTES: usize = GateSheet::MOST_BYTES + 1;

fn main(rt: HostRuntime) {
    let mut buffer: [u8; SHEET_BYTES] = files::buffer(0);
    let size = files::read_named(&rt, b"gates", b"read_gates: gates", &mut buffer);
    let sheet = &buffer[..size];
    let mut out: [u8; Sheet::MOST_BYTES] = files::buffer(0);
    report_turns::write_text(
        &rt,
        &mut rt.stdout(),
        b"read_gates: output",
        &mut out,
        |out| gates_text::text(sheet, out),
    );
}
