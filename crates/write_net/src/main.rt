//! The program: reads the file `net` of the folder it is run in, and writes the net's sheet in the agreed order, or the reader's number and place. What it
//! writes is made by the crate `writer_text`; here is only the reading and the writing.
#![tactic(auto)]

use sheet::Sheet;

// One byte more than a sheet may have, so that a longer file is still refused for its length.
const SHEET_BYTES: usize = Sheet::MOST_BYTES + 1;

fn main(rt: HostRuntime) {
    let mut buffer: [u8; SHEET_BYTES] = files::buffer(0);
    let size = files::read_named(&rt, b"net", b"write_net: net", &mut buffer);
    let sheet = &buffer[..size];
    let mut out: [u8; Sheet::MOST_BYTES] = files::buffer(0);
    report_turns::write_text(
        &rt,
        &mut rt.stdout(),
        b"write_net: output",
        &mut out,
        |out| writer_text::text(sheet, out),
    );
}
