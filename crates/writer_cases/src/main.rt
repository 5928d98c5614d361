//! Runs the cases of standard input through the writer of a record's sheet, in the agreed order and in the record's own, and prints each answer with the
//! whole lent buffer before the case's note; and through the text of the program `write_net`. tests/writer_cases.py tells the numbers of a case and where
//! each expected answer comes from.
#![tactic(auto)]

ghost use Rattle.std.specs.Prelude.{◌<◌, length};

use cases::{
    Case, Input, at_most, data_of, number_at, read_input, run_cases, size_at, write_columns,
    write_counted, write_place,
};
use net::Net;
use sheet::Sheet;
use writer::Written;

// The buffers that calls are lent.
#[derive(Clone, Copy)]
struct Lent;

impl Lent {
    // What a lent buffer holds before the call: no byte of a sheet.
    const UNTOUCHED: u8 = b'?';

    // The longest sheet, and a tail.
    const MOST_BYTES: usize = Sheet::MOST_BYTES + Sheet::LINE_WIDTH;
}

// The number of a record that a case alters after reading.
#[derive(Clone, Copy)]
struct Part;

impl Part {
    const LABEL: u32 = 1;

    const SYMBOL: u32 = 2;

    const VERTEX_COUNT: u32 = 3;

    const EDGE_COUNT: u32 = 4;

    const LETTER_COUNT: u32 = 5;
}

// What a call answers: number, place and length; then, from the next line on, the whole buffer that it was lent.
fn print_written(rt: &HostRuntime, written: Written, buffer: &[u8]) {
    let out = &mut rt.stdout();
    let _ = write_place(out, written.answer);
    let _ = write_columns(out, &[written.length as u64]);
    let _ = rt.write_all(b"\n");
    let _ = rt.write_all(buffer);
}

// The text of the program for the bytes of a sheet, in a buffer of the size that the case at a place gives; none where the buffer is short.
fn run_text<'a>(rt: &HostRuntime, cases: &'a [u8], at: usize, sheet: &'a [u8])
    requires { at < length cases.now }
{
    let mut buffer = files::buffer::<{ Lent::MOST_BYTES }>(Lent::UNTOUCHED);
    let size = size_at(cases, at + Case::FIRST, &buffer);
    let lent = &mut buffer[..size];
    let written = writer_text::text(sheet, lent);
    let _ = write_counted(&mut rt.stdout(), report_turns::written_part(written, lent));
}

// The record that is read from what is written in the agreed order.
fn read_back(net: Net, buffer: &mut [u8]) -> Net {
    let written = writer_sheet::write(net, buffer);
    let size = at_most(written.length as usize, buffer);
    let reading = reader::read(&buffer[..size]);
    reading.net
}

// The record with another label at a vertex place, counted from 0. `with_symbol` is the same of an edge: one for both would take a closure, and be no plainer.
fn with_label(net: Net, place: usize, value: u32) -> Net {
    if Net::MOST_VERTICES <= place {
        return net;
    }
    let mut out = net;
    out.vertices[place].label = (value % 65536) as u16;
    out
}

// The record with another symbol at an edge place, counted from 0.
fn with_symbol(net: Net, place: usize, value: u32) -> Net {
    if Net::MOST_EDGES <= place {
        return net;
    }
    let mut out = net;
    out.edges[place].symbol = (value % 65536) as u16;
    out
}

// The record with the number that the case at a place alters; as it is where the case alters none.
fn altered(cases: &[u8], at: usize, net: Net) -> Net
    requires { at < length cases.now }
{
    let place = number_at(cases, at + Case::THIRD) as usize;
    let value = number_at(cases, at + Case::FOURTH);
    match number_at(cases, at + Case::SECOND) {
        Part::LABEL => with_label(net, place, value),
        Part::SYMBOL => with_symbol(net, place, value),
        Part::VERTEX_COUNT => Net {
            vertex_count: (value % 256) as u8,
            ..net
        },
        Part::EDGE_COUNT => Net {
            edge_count: (value % 65536) as u16,
            ..net
        },
        Part::LETTER_COUNT => Net {
            letter_count: (value % 256) as u8,
            ..net
        },
        _ => net,
    }
}

// The record that the case at a place is about: the one that was read, with what the case alters; for a case that writes once more, what was read back.
fn record_of(cases: &[u8], at: usize, net: Net) -> Net
    requires { at < length cases.now }
{
    let record = altered(cases, at, net);
    if cases[at] != b'A' {
        return record;
    }
    let mut buffer = files::buffer::<{ Lent::MOST_BYTES }>(Lent::UNTOUCHED);
    read_back(record, &mut buffer)
}

// The writing that the case at a place asks for.
fn run_writing(rt: &HostRuntime, cases: &[u8], at: usize, net: Net)
    requires { at < length cases.now }
{
    let record = record_of(cases, at, net);
    let mut buffer = files::buffer::<{ Lent::MOST_BYTES }>(Lent::UNTOUCHED);
    let size = size_at(cases, at + Case::FIRST, &buffer);
    let lent = &mut buffer[..size];
    let written = if cases[at] == b'O' {
        writer_sheet::write_in_own_order(record, lent)
    } else {
        writer_sheet::write(record, lent)
    };
    print_written(rt, written, lent);
}

// The answer of the case at a place, by its kind, for a sheet.
fn print_answer<'a>(rt: &HostRuntime, cases: &'a [u8], at: usize, sheet: &'a [u8])
    requires { at < length cases.now }
{
    let reading = reader::read(sheet);
    match cases[at] {
        b'N' => {
            let _ = write_place(&mut rt.stdout(), reading.answer);
        }
        b'T' => run_text(rt, cases, at, sheet),
        _ => run_writing(rt, cases, at, reading.net),
    }
}

fn main(rt: HostRuntime) {
    let mut buffer: [u8; Input::MOST_BYTES] = files::buffer(0);
    let n = read_input(&rt, &mut buffer);
    let cases = &buffer[..n];
    run_cases(
        &rt,
        cases,
        b'N',
        |at, from| print_answer(&rt, cases, at, data_of(cases, from)),
    );
}
