//! The lines below the header, counted from 0: first the vertices, then the edges.

ghost use Rattle.std.specs.Prelude.{◌≡◌, ◌≤◌};
ghost use Rattle.sheet.specs.Reading.{vertex_of, edge_of, vertex_line_ok, edge_line_ok};
ghost use Rattle.sheet.specs.Entries.{decode_line, refusal_of, with_entry, HasPlace};

use net::{Edge, Net, Vertex};
use sheet::{Answer, Entry, Line};

// A record's roles, forms and ends are bytes, its labels and symbols are of two bytes; a larger number of a line is none of them.
const LARGEST: u32 = u8::MAX as u32;

const LARGEST_SYMBOL: u32 = u16::MAX as u32;

// No `TryFrom` here and below: whoever calls has tested the sizes, and the error could not come.
fn vertex_of(v: Line) -> Vertex
    requires { (v.third ≤ LARGEST) × (v.fourth ≤ LARGEST_SYMBOL) }
    ensures { result ≡ vertex_of v }
{
    Vertex {
        role: v.third as u8,
        label: v.fourth as u16,
    }
}

fn edge_of(v: Line) -> Edge
    requires { (v.second ≤ LARGEST) × (v.third ≤ LARGEST) × (v.fourth ≤ LARGEST) × (v.fifth ≤ LARGEST_SYMBOL) }
    ensures { result ≡ edge_of v }
{
    Edge {
        end1: v.second as u8,
        end2: v.third as u8,
        form: v.fourth as u8,
        symbol: v.fifth as u16,
    }
}

// A vertex line is 2, its number j + 1, role, label and 0. One is taken off the number, for any j may be asked about.
fn vertex_line_ok(net: Net, j: usize, v: Line) -> bool
    ensures { result ≡ vertex_line_ok net j v }
{
    if v.kind != Line::VERTEX {
        return false;
    }
    if v.second == 0 {
        return false;
    }
    let before = (v.second - 1) as usize;
    if before != j {
        return false;
    }
    if v.fifth != 0 {
        return false;
    }
    if LARGEST < v.third {
        return false;
    }
    if LARGEST_SYMBOL < v.fourth {
        return false;
    }
    rules::vertex_ok(net, vertex_of(v))
}

// An edge line is 3, the ends, form and symbol.
fn edge_line_ok(net: Net, v: Line) -> bool
    ensures { result ≡ edge_line_ok net v }
{
    if v.kind != Line::EDGE {
        return false;
    }
    if LARGEST < v.second {
        return false;
    }
    if LARGEST < v.third {
        return false;
    }
    if LARGEST < v.fourth {
        return false;
    }
    if LARGEST_SYMBOL < v.fifth {
        return false;
    }
    rules::edge_ok(net, edge_of(v))
}

// What line j is: a vertex where j is below the vertex count, else an edge; nothing where its values are refused.
pub(crate) fn decode_line(net: Net, j: usize, v: Line) -> Option<Entry>
    ensures { result ≡ decode_line net j v }
{
    let vertices = net.vertex_count as usize;
    if j < vertices {
        if !vertex_line_ok(net, j, v) {
            return None;
        }
        return Some(Entry::Vertex(vertex_of(v)));
    }
    if !edge_line_ok(net, v) {
        return None;
    }
    Some(Entry::Edge(edge_of(v)))
}

// The number that line j is refused with: a vertex's or an edge's.
pub(crate) fn refusal_of(net: Net, j: usize) -> u8
    ensures { result ≡ refusal_of net j }
{
    if j < net.vertex_count as usize {
        return Answer::BAD_VERTEX;
    }
    Answer::BAD_EDGE
}

// The record with what line j adds.
pub(crate) fn with_entry(net: Net, j: usize, entry: Entry) -> Net
    requires { HasPlace net j entry }
    ensures { result ≡ with_entry net j entry }
{
    let mut next = net;
    match entry {
        Entry::Vertex(vertex) => {
            next.vertices[j] = vertex;
            next
        }
        Entry::Edge(edge) => {
            let i = j - net.vertex_count as usize;
            next.edges[i] = edge;
            next
        }
    }
}
