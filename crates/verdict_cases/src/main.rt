//! Runs the cases of standard input through the verdict, the number of key nodes and the excitation of one vertex, and prints each answer beside the case's note.
//! tests/verdict_cases.py tells the layout of a case and where each expected answer comes from.
#![tactic(auto)]

ghost use Rattle.std.specs.Prelude.{◌<◌, length};

use cases::{
    Case, Input, data_of, number_at, read_input, run_cases, write_columns, write_place,
    write_result,
};
use net::Net;
use sheet::Answer;

// The excitation of one vertex as a character: a hyphen where the vertex is not storage, a question mark for any other refusal.
fn print_character(rt: &HostRuntime, net: Net, input: u32, key: u32, vertex: u32) {
    match vertex_excitation::excitation(net, input, key, vertex) {
        Ok(v) => {
            let _ = rt.print(v as u64);
        }
        Err(Answer::NO_STORAGE_VERTEX) => {
            let _ = rt.write_all(b"-");
        }
        Err(_) => {
            let _ = rt.write_all(b"?");
        }
    }
}

// Every vertex in order, one character each.
fn print_state(rt: &HostRuntime, net: Net, input: u32, key: u32) {
    for vertex in 1..=net.vertex_count as u32 {
        print_character(rt, net, input, key, vertex);
    }
}

// The number of key nodes of a record: the number of its answer, and h.
fn print_key_nodes(rt: &HostRuntime, net: Net) {
    let given = record_keys::key_nodes(net);
    let _ = write_columns(
        &mut rt.stdout(),
        &[given.answer.number as u64, given.count as u64],
    );
}

// The answer of the case at a place, by its kind, for a sheet.
fn print_answer(rt: &HostRuntime, cases: &[u8], at: usize, sheet: &[u8])
    requires { at < length cases.now }
{
    let input = number_at(cases, at + Case::FIRST);
    let key = number_at(cases, at + Case::SECOND);
    let vertex = number_at(cases, at + Case::THIRD);
    let reading = reader::read(sheet);
    let net = reading.net;
    let out = &mut rt.stdout();
    match cases[at] {
        b'N' => {
            let _ = write_place(out, reading.answer);
        }
        b'V' => {
            let _ = write_place(out, verdict::verdict(net));
        }
        b'K' => print_key_nodes(rt, net),
        b'E' => {
            let _ = write_result(out, vertex_excitation::excitation(net, input, key, vertex));
        }
        _ => print_state(rt, net, input, key),
    }
}

fn main(rt: HostRuntime) {
    let mut buffer: [u8; Input::MOST_BYTES] = files::buffer(0);
    let n = read_input(&rt, &mut buffer);
    let cases = &buffer[..n];
    run_cases(
        &rt,
        cases,
        b'N',
        |at, from| print_answer(&rt, cases, at, data_of(cases, from)),
    );
}
