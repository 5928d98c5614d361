//! What reading a sheet begins and ends with: the test of its length, the record before its lines are read, a refusal, and the rows over the graph. Types,
//! definitions and laws are those of the crate `sheet`.
#![tactic(auto)]

ghost use Rattle.std.specs.Prelude.{◌≡◌, ◌≤◌};
ghost use Rattle.sheet.specs.Checked.{Checked};
ghost use Rattle.sheet.specs.Graph.{graph_rows};
ghost use Rattle.sheet.specs.Limits.{most_columns, most_lines};
ghost use Rattle.sheet.specs.Reading.{whole_lines, conclude};
ghost use Rattle.sheet.specs.Record.{start_net, refused};
ghost use Rattle.sheet.specs.Rows.{answer, first_row};

use net::{Edge, Net, Vertex};
use sheet::{Answer, Reading};

// Are so many bytes whole lines, one at least and no more than the most?
pub fn whole_lines(size: usize, columns: usize, most: usize) -> bool
    requires { (columns ≤ most_columns) × (most ≤ most_lines) }
    ensures { result ≡ whole_lines columns most size }
{
    let width = sheet::line_bytes(columns);
    if size == 0 {
        return false;
    }
    if size % width != 0 {
        return false;
    }
    size <= width * most
}

// The record of a header before any vertex or edge is read: all places zero.
pub fn start_net(vertices: u8, edges: u16, letters: u8) -> Net
    ensures { result ≡ start_net vertices edges letters }
{
    Net {
        vertices: [Vertex::default(); Net::MOST_VERTICES],
        edges: [Edge::default(); Net::MOST_EDGES],
        vertex_count: vertices,
        edge_count: edges,
        letter_count: letters,
    }
}

// A refusal: its number and place, and the empty record.
pub fn refusal(number: u8, place: u16) -> Reading
    ensures { result ≡ refused (answer number place) }
{
    let empty = start_net(0, 0, 0);
    Reading {
        answer: Answer { number, place },
        net: empty,
    }
}

// What the rows over the graph make of the record.
pub fn concluded(net: Net) -> Reading
    requires { Checked net }
    ensures { result ≡ conclude net (first_row (graph_rows net)) }
{
    let answer = graph_rows::graph_answer(net);
    if answer.number != 0 {
        return refusal(answer.number, answer.place);
    }
    Reading { answer, net }
}
