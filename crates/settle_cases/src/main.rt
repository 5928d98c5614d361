//! Runs the cases of standard input through settling and batches, and prints each answer with both lent buffers beside the case's note.
//! tests/settle_cases.py tells the layout of a case and where each expected answer comes from.
#![tactic(auto)]

ghost use Rattle.std.specs.Prelude.{◌<◌, length};

use cases::{
    Case, Input, data_of, number_at, read_input, run_cases, size_at, write_columns, write_place,
};
use net::Net;
use ternary::Signal;

// The buffers that calls are lent.
#[derive(Clone, Copy)]
struct Lent;

impl Lent {
    // What a lent buffer holds before the call.
    const UNTOUCHED: u8 = 9;

    // The most bytes of each buffer that settling is lent, with a tail beyond the most key nodes.
    const MOST_SIGNALS: usize = Net::MOST_KEY_NODES + 4;

    // A batch has at most so many jobs. For each it is lent the bytes of r and t, and three answer bytes.
    const MOST_JOBS: usize = 9999;

    const MOST_RESULTS: usize = Lent::MOST_JOBS * 2 * Net::MOST_KEY_NODES;

    const MOST_ANSWERS: usize = Lent::MOST_JOBS * 3;
}

// A signal as a character; any other byte as its number.
fn print_signal(rt: &HostRuntime, byte: u8) {
    if byte == Signal::X {
        let _ = rt.write_all(b"X");
    } else {
        let _ = rt.print(byte as u64);
    }
}

// The bytes of a buffer, as signals.
fn print_signals(rt: &HostRuntime, buffer: &[u8]) {
    for byte in buffer {
        print_signal(rt, *byte);
    }
}

// The bytes of a buffer, in the columns of a field each.
fn print_numbers(rt: &HostRuntime, buffer: &[u8]) {
    for byte in buffer {
        let _ = write_columns(&mut rt.stdout(), &[*byte as u64]);
    }
}

// Settling: number, place, step counts, and both buffers whole. It takes what `settling::settle` takes.
fn print_settling(
    rt: &HostRuntime,
    net: Net,
    old: u32,
    new: u32,
    start: u32,
    r: &mut [u8],
    t: &mut [u8],
) {
    let answer = settling::settle(net, old, new, start, r, t);
    let numbers = [
        answer.number as u64,
        answer.place as u64,
        answer.first_steps as u64,
        answer.second_steps as u64,
    ];
    let _ = write_columns(&mut rt.stdout(), &numbers);
    let _ = rt.write_all(b" ");
    print_signals(rt, r);
    let _ = rt.write_all(b" ");
    print_signals(rt, t);
}

// A batch: number, place, and both buffers whole.
fn print_batch(rt: &HostRuntime, net: Net, jobs: &[u8], results: &mut [u8], answers: &mut [u8]) {
    let _ = write_place(
        &mut rt.stdout(),
        settling::batch(net, jobs, results, answers),
    );
    let _ = rt.write_all(b" ");
    print_signals(rt, results);
    let _ = rt.write_all(b" ");
    print_numbers(rt, answers);
}

// The settling that the case at a place asks for.
fn run_settling(rt: &HostRuntime, cases: &[u8], at: usize, net: Net)
    requires { at < length cases.now }
{
    let old = number_at(cases, at + Case::FIRST);
    let new = number_at(cases, at + Case::SECOND);
    let start = number_at(cases, at + Case::THIRD);
    let mut r: [u8; Lent::MOST_SIGNALS] = files::buffer(Lent::UNTOUCHED);
    let mut t: [u8; Lent::MOST_SIGNALS] = files::buffer(Lent::UNTOUCHED);
    let r_size = size_at(cases, at + Case::FOURTH, &r);
    let t_size = size_at(cases, at + Case::FIFTH, &t);
    print_settling(rt, net, old, new, start, &mut r[..r_size], &mut t[..t_size]);
}

// The batch that the case at a place asks for. A case of the benchmark prints its answer alone.
fn run_batch(rt: &HostRuntime, cases: &[u8], at: usize, net: Net)
    requires { at < length cases.now }
{
    let mut results: [u8; Lent::MOST_RESULTS] = files::buffer(Lent::UNTOUCHED);
    let mut answers: [u8; Lent::MOST_ANSWERS] = files::buffer(Lent::UNTOUCHED);
    let results_size = size_at(cases, at + Case::FOURTH, &results);
    let answers_size = size_at(cases, at + Case::FIFTH, &answers);
    let jobs = data_of(cases, at);
    let results = &mut results[..results_size];
    let answers = &mut answers[..answers_size];
    if cases[at] == b'B' {
        print_batch(rt, net, jobs, results, answers);
    } else {
        let _ = write_place(
            &mut rt.stdout(),
            settling::batch(net, jobs, results, answers),
        );
    }
}

// The answer of the case at a place, by its kind, for a sheet.
fn print_answer(rt: &HostRuntime, cases: &[u8], at: usize, sheet: &[u8])
    requires { at < length cases.now }
{
    let reading = reader::read(sheet);
    match cases[at] {
        b'N' => {
            let _ = write_place(&mut rt.stdout(), reading.answer);
        }
        b'S' => run_settling(rt, cases, at, reading.net),
        _ => run_batch(rt, cases, at, reading.net),
    }
}

fn main(rt: HostRuntime) {
    let mut buffer: [u8; Input::MOST_BYTES] = files::buffer(0);
    let n = read_input(&rt, &mut buffer);
    let cases = &buffer[..n];
    run_cases(
        &rt,
        cases,
        b'N',
        |at, from| print_answer(&rt, cases, at, data_of(cases, from)),
    );
}
