//! Runs the cases of standard input through the reader, the one-line call and the job line, each in the width in force and in others, and through the
//! writer of a field, and prints each answer beside the case's note. tests/sheet_cases.py tells the layout of a case and where each expected answer
//! comes from.
#![tactic(auto)]

ghost use Rattle.std.specs.Prelude.{◌<◌, ◌≡◌, length};
ghost use Rattle.sheet.specs.Limits.{ReadColumns};

use cases::{Case, Input, data_of, number_at, read_input, run_cases, write_columns, write_place};
use sheet::{Job, Reading, Sheet};

// The buffer that a field is written to, and what it holds before.
const FIELD_BUFFER: usize = 12;

const UNTOUCHED: u8 = b'?';

// The number of what is no job line.
const NO_JOB: u64 = 46;

// The buffer with a number in its first columns; untouched where it has not so many.
fn field_in(n: u64, columns: usize) -> [u8; FIELD_BUFFER]
    ensures { FIELD_BUFFER ≡ length result }
{
    let mut text = files::buffer::<FIELD_BUFFER>(UNTOUCHED);
    if columns <= FIELD_BUFFER {
        fields::write_field(&mut text[..columns], n);
    }
    text
}

// A number in so many columns, and the rest of the buffer.
fn print_field(rt: &HostRuntime, n: u64, columns: usize) {
    let text = field_in(n, columns);
    let _ = rt.write_all(&text);
}

// A sheet: number, place, and whether the record is one.
fn print_reading(rt: &HostRuntime, reading: Reading) {
    let out = &mut rt.stdout();
    let _ = write_place(out, reading.answer);
    let _ = write_columns(out, &[record::is_record(reading.net) as u64]);
}

// Bytes that are handed back: how many, and these.
fn print_part(rt: &HostRuntime, part: &[u8]) {
    let _ = write_columns(&mut rt.stdout(), &[part.len() as u64]);
    let _ = rt.write_all(part);
}

// One line of a sheet: number, and its bytes.
fn print_line(rt: &HostRuntime, sheet: &[u8], n: usize) {
    let _ = write_columns(&mut rt.stdout(), &[lines::line_answer(sheet, n) as u64]);
    print_part(rt, lines::line(sheet, n));
}

// A job line: 0 and its three numbers, or 46 and zeros.
fn print_job(rt: &HostRuntime, bytes: &[u8]) {
    let numbers = match line_values::job(bytes) {
        Some(Job { old, new, start }) => [0, old as u64, new as u64, start as u64],
        None => [NO_JOB, 0, 0, 0],
    };
    let _ = write_columns(&mut rt.stdout(), &numbers);
}

// A job line of another width: its three numbers in a field of the buffer each, or 46.
fn print_job_in(rt: &HostRuntime, bytes: &[u8], columns: usize)
    requires { ReadColumns columns }
{
    match line_values::job_in(bytes, columns) {
        Some(Job { old, new, start }) => {
            print_field(rt, old as u64, columns);
            print_field(rt, new as u64, columns);
            print_field(rt, start as u64, columns);
        }
        None => {
            let _ = write_columns(&mut rt.stdout(), &[NO_JOB]);
        }
    }
}

// The columns that a case asks for, made such as are read.
fn columns_at(cases: &[u8], at: usize) -> usize
    ensures { ReadColumns result }
{
    let columns = number_at(cases, at) as usize;
    if columns == 0 {
        return 1;
    }
    if Sheet::MOST_COLUMNS < columns {
        return Sheet::MOST_COLUMNS;
    }
    columns
}

// The answer of the case at a place, by its kind.
fn print_answer(rt: &HostRuntime, cases: &[u8], at: usize)
    requires { at < length cases.now }
{
    let bytes = data_of(cases, at);
    match cases[at] {
        b'S' => print_reading(rt, reader::read(bytes)),
        b's' => print_reading(
            rt,
            reader::read_in(bytes, columns_at(cases, at + Case::FIRST)),
        ),
        b'L' => print_line(rt, bytes, number_at(cases, at + Case::FIRST) as usize),
        b'l' => print_part(
            rt,
            lines::line_in(
                bytes,
                columns_at(cases, at + Case::FIRST),
                number_at(cases, at + Case::SECOND) as usize,
            ),
        ),
        b'J' => print_job(rt, bytes),
        b'j' => print_job_in(rt, bytes, columns_at(cases, at + Case::FIRST)),
        _ => print_field(
            rt,
            number_at(cases, at + Case::FIRST) as u64,
            number_at(cases, at + Case::SECOND) as usize,
        ),
    }
}

fn main(rt: HostRuntime) {
    let mut buffer: [u8; Input::MOST_BYTES] = files::buffer(0);
    let n = read_input(&rt, &mut buffer);
    let cases = &buffer[..n];
    run_cases(&rt, cases, b'S', |at, _| print_answer(&rt, cases, at));
}
