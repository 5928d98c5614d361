//! The program: reads the files `net` and `jobs` of the folder it is run in, and writes a first line for the net and a line for each job.
//! What it writes is made by the crates `report_opening` and `report_pieces`, and what it does next is decided in `report_turns`; here is only the reading
//! and the writing.
#![tactic(auto)]

ghost use Rattle.output.specs.Program.{Onward};

use output::Report;
use sheet::Sheet;
use std::fs::File;

// One byte more than a sheet may have, so that a longer file is still refused for its length.
const SHEET_BYTES: usize = Sheet::MOST_BYTES + 1;

// Writes the first line.
fn write_opening(rt: &HostRuntime, sheet: &[u8]) -> Option<u32> {
    let mut out: [u8; Report::OPENING_BYTES] = files::buffer(0);
    let (written, is_written) = report_turns::write_text(
        rt,
        &mut rt.stdout(),
        b"settle: output",
        &mut out,
        |out| report_opening::opening(sheet, out),
    );
    report_turns::after_opening(written, is_written)
}

// Writes the text of a piece of the jobs. Where there are no lines there is none, and no buffer is made for it.
fn write_lines<'a>(rt: &HostRuntime, sheet: &'a [u8], first: u32, lines: &'a [u8]) -> bool {
    if lines.is_empty() {
        return true;
    }
    let mut out: [u8; Report::PIECE_BYTES] = files::buffer(0);
    let (_, is_written) = report_turns::write_text(
        rt,
        &mut rt.stdout(),
        b"settle: output",
        &mut out,
        |out| report_pieces::piece(sheet, first, lines, out),
    );
    is_written
}

// Reads the lines of a piece of the jobs and writes its text.
fn write_piece(rt: &HostRuntime, sheet: &[u8], jobs: &mut Option<File>, first: u32) -> Option<u32>
    ensures { Onward first result }
{
    let mut lines: [u8; Report::PIECE_LINES] = files::buffer(0);
    let size = files::read(rt, jobs, b"settle: jobs", &mut lines);
    let is_written = write_lines(rt, sheet, first, &lines[..size]);
    report_turns::after_piece(first, size, is_written)
}

// Writes the text of the jobs, piece by piece: what comes next is known after each.
fn write_jobs(rt: &HostRuntime, sheet: &[u8], jobs: &mut Option<File>, start: Option<u32>) {
    let mut next = start;
    while let Some(first) = next {
        next = write_piece(rt, sheet, jobs, first);
    }
}

fn main(rt: HostRuntime) {
    let mut buffer: [u8; SHEET_BYTES] = files::buffer(0);
    let size = files::read_named(&rt, b"net", b"settle: net", &mut buffer);
    let next = write_opening(&rt, &buffer[..size]);
    if next.is_none() {
        return;
    }
    let mut jobs = files::open(&rt, b"jobs", b"settle: jobs");
    write_jobs(&rt, &buffer[..size], &mut jobs, next);
    drop(jobs);
}
