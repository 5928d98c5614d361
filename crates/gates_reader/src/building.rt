//! The record of gates, built by appending vertices and edges.

ghost use Rattle.std.specs.Prelude.{◌≡◌, ◌+◌, ◌≤◌, ◌<◌, length};
ghost use Rattle.net.specs.Limits.{most_vertices, most_edges};
ghost use Rattle.gates.specs.Limits.{most_gates};
ghost use Rattle.gates.specs.Gates.{p_edge, n_edge};
ghost use Rattle.gates.specs.Building.{append_vertex, append_edge, append_edges, add_gate, outputs_of};

use gates::{Gate, GateSheet};
use net::{Edge, Net, Vertex};

fn append_vertex(net: Net, role: u8, label: u16) -> Net
    requires { net.vertex_count < most_vertices }
    ensures { result ≡ append_vertex net (record { role = role; label = label }) }
{
    let at = net.vertex_count as usize;
    let mut next = net;
    next.vertices[at] = Vertex { role, label };
    next.vertex_count = net.vertex_count + 1;
    next
}

fn append_edge(net: Net, e: Edge) -> Net
    requires { net.edge_count < most_edges }
    ensures { result ≡ append_edge net e }
{
    let at = net.edge_count as usize;
    let mut next = net;
    next.edges[at] = e;
    next.edge_count = net.edge_count + 1;
    next
}

fn append_edges(net: Net, edges: &[Edge]) -> Net
    requires { net.edge_count + length edges.now ≤ most_edges }
    ensures { result ≡ append_edges net edges.now }
{
    let mut next = net;
    for edge in edges {
        next = append_edge(next, *edge);
    }
    next
}

// A p edge has form 1.
fn p_edge(end1: u8, end2: u8, symbol: u16) -> Edge
    ensures { result ≡ p_edge end1 end2 symbol }
{
    Edge {
        end1,
        end2,
        form: 1,
        symbol,
    }
}

// An n edge has form 0, and is else as a p edge.
fn n_edge(end1: u8, end2: u8, symbol: u16) -> Edge
    ensures { result ≡ n_edge end1 end2 symbol }
{
    Edge {
        form: 0,
        ..p_edge(end1, end2, symbol)
    }
}

// A gate with its output: the p edges, then the n edges, the end nearer to the vertex that carries 1 first.
pub(crate) fn add_gate(net: Net, output: u8, gate: Gate) -> Net
    requires { (net.vertex_count < most_vertices) × (net.edge_count + 4 ≤ most_edges) }
    ensures { result ≡ add_gate net output gate }
{
    let inner = net.vertex_count + 1;
    match gate {
        Gate::Inverter(s) => append_edges(
            net,
            &[
                p_edge(GateSheet::HIGH, output, s),
                n_edge(output, GateSheet::LOW, s),
            ],
        ),
        Gate::Nand(s, t) => append_edges(
            append_vertex(net, Vertex::STORAGE, 0),
            &[
                p_edge(GateSheet::HIGH, output, s),
                p_edge(GateSheet::HIGH, output, t),
                n_edge(output, inner, s),
                n_edge(inner, GateSheet::LOW, t),
            ],
        ),
        Gate::Nor(s, t) => append_edges(
            append_vertex(net, Vertex::STORAGE, 0),
            &[
                p_edge(GateSheet::HIGH, inner, s),
                p_edge(inner, output, t),
                n_edge(output, GateSheet::LOW, s),
                n_edge(output, GateSheet::LOW, t),
            ],
        ),
    }
}

// The vertices that carry 0 and 1, and the outputs of so many gates.
pub(crate) fn outputs(gates: usize, letters: u8) -> Net
    requires { gates ≤ most_gates }
    ensures { result ≡ outputs_of gates letters gates }
{
    let empty = sheet_readings::start_net(0, 0, letters);
    let low = append_vertex(empty, Vertex::INPUT, 0);
    let mut net = append_vertex(low, Vertex::INPUT, 1);
    for g in 0..gates {
        net = append_vertex(net, Vertex::OUTPUT, 0);
    }
    net
}
