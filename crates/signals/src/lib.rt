//! The signals of a component: the letters and key nodes on the edges that touch it, and the letters of the input vertices that these
//! edges touch. Types, definitions and laws are those of the crate `net`.
#![tactic(auto)]

ghost use Rattle.std.specs.Prelude.{◌≡◌, true, cond, ◌&&◌, ◌≤◌, eqb};
ghost use Rattle.net.specs.Limits.{most_vertices};
ghost use Rattle.net.specs.Graph.{is_storage};
ghost use Rattle.net.specs.Tables.{input_labels, mark_symbol, mark_end, signal_flags};

use net::{Graph, Net, Symbol, Vertex, by_vertex};

fn input_label(role: u8, label: u16) -> u16
    ensures { result ≡ cond (eqb role 0) label 0 }
{
    if role == Vertex::INPUT { label } else { 0 }
}

// The label of each input vertex; elsewhere 0, which is a constant's symbol.
pub fn input_labels(net: Net) -> [u16; Net::VERTEX_PLACES]
    requires { net.vertex_count ≤ most_vertices }
    ensures { result ≡ input_labels net }
{
    by_vertex(&net, 0, |vertex| input_label(vertex.role, vertex.label))
}

// Is a vertex with this flag and label a storage vertex of the component labelled `mine`?
fn belongs(storage: u8, label: u8, mine: u8) -> bool
    ensures { result ≡ (eqb storage 1 && eqb mine label) }
{
    if storage != 1 {
        return false;
    }
    mine == label
}

// A symbol's flag is set, if it is a variable.
fn mark_symbol(flags: &mut [u8; Symbol::BOUND], symbol: u16)
    ensures { flags.new ≡ mark_symbol symbol flags.old }
{
    if symbols::is_variable(Symbol::from(symbol)) {
        flags[symbol as usize] = 1;
    }
}

// What an edge adds by one end: if that end is a member, its symbol and the label of an input vertex at the other end.
fn mark_end(flags: &mut [u8; Symbol::BOUND], member: bool, symbol: u16, label: u16)
    ensures { flags.new ≡ mark_end member symbol label flags.old }
{
    if member {
        mark_symbol(flags, symbol);
        mark_symbol(flags, label);
    }
}

// 1 at each signal of y's component, by symbol number.
pub fn signal_flags(graph: &Graph, y: u8) -> [u8; Symbol::BOUND]
    requires { is_storage graph.now.net y ≡ true }
    ensures { result ≡ signal_flags graph.now.net y }
{
    let inputs = input_labels(graph.net);
    let mine = graph.labels[y as usize];
    let mut flags = [0u8; Symbol::BOUND];
    let count = graph.net.edge_count as usize;
    for edge in &graph.net.edges[..count] {
        let u = edge.end1 as usize;
        let v = edge.end2 as usize;
        mark_end(
            &mut flags,
            belongs(graph.storage[u], graph.labels[u], mine),
            edge.symbol,
            inputs[v],
        );
        mark_end(
            &mut flags,
            belongs(graph.storage[v], graph.labels[v], mine),
            edge.symbol,
            inputs[u],
        );
    }
    flags
}
