//! Runs the cases of standard input through the calls that give the program's text, and prints the text, or what it is like, before the case's note.
//! tests/report_cases.py tells the numbers of a case and where each expected answer comes from.
#![tactic(auto)]

ghost use Rattle.std.specs.Prelude.{◌<◌, length};
ghost use Rattle.std.specs.Counts.{IsPrefixLen};
ghost use Rattle.output.specs.Program.{Onward};

use cases::{Case, Input, data_of, number_at, read_input, run_cases, size_at};
use output::{Report, Written};
use sheet::Sheet;

// The buffers that calls are lent.
#[derive(Clone, Copy)]
struct Lent;

impl Lent {
    // What a lent buffer holds before the call: no byte of the text.
    const UNTOUCHED: u8 = 9;

    // The room that a piece asks for, and a tail.
    const MOST_TEXT: usize = Report::PIECE_BYTES + 4;

    // One job more than is read, and a byte.
    const MOST_JOBS: usize = (Report::MOST_JOBS + 1) * Sheet::LINE_WIDTH + 1;
}

// The size of the first line of a text, its end included.
fn line_size(text: &[u8]) -> usize
    ensures { IsPrefixLen result text.now }
{
    match text.iter().position(|b| *b == b'\n') {
        Some(end) => end + 1,
        None => text.len(),
    }
}

// How many bytes a text has, its first line and its last; all its lines are of one size. Nothing of a text that has none.
fn print_ends(rt: &HostRuntime, text: &[u8]) {
    if text.is_empty() {
        return;
    }
    let size = line_size(text);
    let last = text.len() - size;
    let _ = rt.print(text.len() as u64);
    let _ = rt.write_all(b"\n");
    let _ = rt.write_all(&text[..size]);
    let _ = rt.write_all(&text[last..]);
}

// A text as it stands.
fn print_whole(rt: &HostRuntime, text: &[u8]) {
    let _ = rt.write_all(text);
}

// The first line of the output.
fn print_opening(rt: &HostRuntime, sheet: &[u8]) {
    let mut out: [u8; Lent::MOST_TEXT] = files::buffer(Lent::UNTOUCHED);
    let written = report_opening::opening(sheet, &mut out);
    let _ = rt.write_all(report_turns::written_part(written, &out));
}

// The lines of the piece that begins with this job, counted from 1: as many as a piece has, or all that are left.
fn lines_from(jobs: &[u8], first: u32) -> &[u8] {
    let size = jobs.len();
    let number = first as usize;
    if number == 0 {
        return &jobs[0..0];
    }
    let at = (number - 1) * Sheet::LINE_WIDTH;
    if size < at {
        return &jobs[0..0];
    }
    let end = at + Report::PIECE_LINES;
    if size < end {
        return &jobs[at..size];
    }
    &jobs[at..end]
}

// Prints the text of the piece that begins with this job, and says what comes next, as the program does.
fn print_piece<'a, F: Fn(&[u8])>(
    print: &F,
    sheet: &'a [u8],
    jobs: &'a [u8],
    first: u32,
) -> Option<u32>
    requires { F.IsAlwaysCallable print.now }
    ensures { Onward first result }
{
    let lines = lines_from(jobs, first);
    let mut out: [u8; Lent::MOST_TEXT] = files::buffer(Lent::UNTOUCHED);
    let written = report_pieces::piece(sheet, first, lines, &mut out);
    print(report_turns::written_part(written, &out));
    report_turns::after_piece(first, lines.len(), true)
}

// The lines of the jobs, piece by piece, each printed by `print`: what comes next is known after each.
fn print_pieces<'a, F: Fn(&[u8])>(print: F, sheet: &'a [u8], jobs: &'a [u8])
    requires { F.IsAlwaysCallable print }
{
    let mut next = Some(1);
    while let Some(first) = next {
        next = print_piece(&print, sheet, jobs, first);
    }
}

// Fills the jobs with lines, repeated over and over; as they are where there are no lines.
fn repeat<'a, 'b>(lines: &'a [u8], jobs: &'b mut [u8]) {
    if lines.is_empty() {
        return;
    }
    for chunk in jobs.chunks_mut(lines.len()) {
        for (job, byte) in chunk.iter_mut().zip(lines) {
            *job = *byte;
        }
    }
}

// The pieces of as many bytes of jobs as the case at a place says, which repeat its data.
fn print_many<'a>(rt: &HostRuntime, cases: &'a [u8], at: usize, sheet: &'a [u8])
    requires { at < length cases.now }
{
    let mut jobs: [u8; Lent::MOST_JOBS] = files::buffer(0);
    repeat(data_of(cases, at), &mut jobs);
    let size = size_at(cases, at + Case::FIRST, &jobs);
    print_pieces(|text| print_ends(rt, text), sheet, &jobs[..size]);
}

// How many bytes are as before the call.
fn untouched_bytes(out: &[u8]) -> u64 {
    out.iter().filter(|byte| **byte == Lent::UNTOUCHED).count() as u64
}

// What a call wrote to a lent buffer, how many bytes it says that it wrote and whether they are the last, or that the buffer is short, and how many bytes are
// untouched.
fn print_lent(rt: &HostRuntime, written: Written, out: &[u8]) {
    let _ = rt.write_all(report_turns::written_part(written, out));
    match written {
        Written::Bytes(count) => {
            let _ = rt.print(count as u64);
        }
        Written::Last(count) => {
            let _ = rt.write_all(b"last ");
            let _ = rt.print(count as u64);
        }
        Written::Short => {
            let _ = rt.write_all(b"short");
        }
    }
    let _ = rt.write_all(b" ");
    let _ = rt.print(untouched_bytes(out));
}

// The first line, or else a piece from the job on that the case at a place names, in a buffer of the size that it gives.
fn print_in_buffer<'a>(rt: &HostRuntime, cases: &'a [u8], at: usize, sheet: &'a [u8])
    requires { at < length cases.now }
{
    let first = number_at(cases, at + Case::SECOND);
    let mut out: [u8; Lent::MOST_TEXT] = files::buffer(Lent::UNTOUCHED);
    let size = size_at(cases, at + Case::FIRST, &out);
    let lent = &mut out[..size];
    let written = if cases[at] == b'O' {
        report_opening::opening(sheet, lent)
    } else {
        report_pieces::piece(sheet, first, data_of(cases, at), lent)
    };
    print_lent(rt, written, lent);
}

// The answer of the case at a place, by its kind, for a sheet.
fn print_answer<'a>(rt: &HostRuntime, cases: &'a [u8], at: usize, sheet: &'a [u8])
    requires { at < length cases.now }
{
    match cases[at] {
        b'N' => print_opening(rt, sheet),
        b'J' => print_pieces(|text| print_whole(rt, text), sheet, data_of(cases, at)),
        b'M' => print_many(rt, cases, at, sheet),
        _ => print_in_buffer(rt, cases, at, sheet),
    }
}

fn main(rt: HostRuntime) {
    let mut buffer: [u8; Input::MOST_BYTES] = files::buffer(0);
    let n = read_input(&rt, &mut buffer);
    let cases = &buffer[..n];
    run_cases(
        &rt,
        cases,
        b'N',
        |at, from| print_answer(&rt, cases, at, data_of(cases, from)),
    );
}
