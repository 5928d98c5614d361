//! Runs the cases of standard input through the reader of gate sheets, and prints each answer before the case's note: what is read, the verdict on it, the
//! excitation of one of its vertices, and the text of the program `read_gates`. tests/gates_cases.py tells the numbers of a case and where each expected answer
//! comes from.
#![tactic(auto)]

ghost use Rattle.std.specs.Prelude.{◌<◌, length};

use cases::{
    Case, Input, data_of, number_at, read_input, run_cases, size_at, write_columns, write_counted,
    write_place, write_result,
};
use sheet::{Reading, Sheet};

// The buffer that the text is written to.
#[derive(Clone, Copy)]
struct Lent;

impl Lent {
    // The longest sheet, and a tail.
    const MOST_BYTES: usize = Sheet::MOST_BYTES + Sheet::LINE_WIDTH;
}

// What a gate sheet reads to: number and place, the record's vertices, edges and letters, and 1 if it is a record that some accepted sheet gives, else 0.
fn print_reading(rt: &HostRuntime, reading: Reading) {
    let net = reading.net;
    let out = &mut rt.stdout();
    let _ = write_place(out, reading.answer);
    let numbers = [
        net.vertex_count as u64,
        net.edge_count as u64,
        net.letter_count as u64,
        record::is_record(net) as u64,
    ];
    let _ = write_columns(out, &numbers);
}

// The text of the program for the bytes of a gate sheet, in a buffer of the size that the case at a place gives; none where the buffer is short.
fn run_text<'a>(rt: &HostRuntime, cases: &'a [u8], at: usize, sheet: &'a [u8])
    requires { at < length cases.now }
{
    let mut buffer: [u8; Lent::MOST_BYTES] = files::buffer(0);
    let size = size_at(cases, at + Case::FIRST, &buffer);
    let lent = &mut buffer[..size];
    let written = gates_text::text(sheet, lent);
    let _ = write_counted(&mut rt.stdout(), report_turns::written_part(written, lent));
}

// The answer of the case at a place, by its kind, for a gate sheet.
fn print_answer<'a>(rt: &HostRuntime, cases: &'a [u8], at: usize, sheet: &'a [u8])
    requires { at < length cases.now }
{
    let input = number_at(cases, at + Case::FIRST);
    let key = number_at(cases, at + Case::SECOND);
    let vertex = number_at(cases, at + Case::THIRD);
    let reading = gates_reader::read(sheet);
    let out = &mut rt.stdout();
    match cases[at] {
        b'G' => print_reading(rt, reading),
        b'V' => {
            let _ = write_place(out, verdict::verdict(reading.net));
        }
        b'E' => {
            let excitation = vertex_excitation::excitation(reading.net, input, key, vertex);
            let _ = write_result(out, excitation);
        }
        _ => run_text(rt, cases, at, sheet),
    }
}

fn main(rt: HostRuntime) {
    let mut buffer: [u8; Input::MOST_BYTES] = files::buffer(0);
    let n = read_input(&rt, &mut buffer);
    let cases = &buffer[..n];
    run_cases(
        &rt,
        cases,
        b'G',
        |at, from| print_answer(&rt, cases, at, data_of(cases, from)),
    );
}
