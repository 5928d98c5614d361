//! The graph of a net as tables of bytes: an entry for each vertex number from 0; and the number of key nodes.
//! Types, definitions and laws are those of the crate `net`.
#![tactic(auto)]

ghost use Rattle.std.specs.Prelude.{◌≡◌, ◌||◌, ◌≤◌, eqb};
ghost use Rattle.ternary.specs.Bits.{digit};
ghost use Rattle.net.specs.Limits.{most_vertices};
ghost use Rattle.net.specs.Graph.{key_count};
ghost use Rattle.net.specs.Tables.{Readable, storage_flags, output_flags, key_flags};

use net::{Net, Symbol, Vertex, by_vertex};

fn storage_flag(role: u8) -> u8
    ensures { result ≡ digit (eqb role 1 || eqb role 2) }
{
    match role {
        Vertex::STORAGE..=Vertex::OUTPUT => 1,
        _ => 0,
    }
}

// 1 at each storage vertex, 0 elsewhere.
pub fn storage_flags(net: Net) -> [u8; Net::VERTEX_PLACES]
    requires { net.vertex_count ≤ most_vertices }
    ensures { result ≡ storage_flags net }
{
    by_vertex(&net, 0, |vertex| storage_flag(vertex.role))
}

// 1 at each output, 0 elsewhere.
pub fn output_flags(net: Net) -> [u8; Net::VERTEX_PLACES]
    requires { net.vertex_count ≤ most_vertices }
    ensures { result ≡ output_flags net }
{
    by_vertex(&net, 0, |vertex| flags::equal(vertex.role, Vertex::OUTPUT))
}

// 1 at each key node, 0 elsewhere: a storage vertex that is the symbol of an edge in use. A symbol that is no vertex copies the flag of
// number 0, which is no vertex either.
pub fn key_flags(net: Net, storage: &[u8; Net::VERTEX_PLACES]) -> [u8; Net::VERTEX_PLACES]
    requires { Readable net × (storage.now ≡ storage_flags net) }
    ensures { result ≡ key_flags net }
{
    let mut keys = [0u8; Net::VERTEX_PLACES];
    let count = net.edge_count as usize;
    for edge in &net.edges[..count] {
        let v = symbols::vertex_of(Symbol::from(edge.symbol));
        keys[v as usize] = storage[v as usize];
    }
    keys
}

// h, the number of key nodes.
pub fn key_count(net: Net) -> usize
    requires { Readable net }
    ensures { result ≡ key_count net }
{
    let storage = storage_flags(net);
    let keys = key_flags(net, &storage);
    flags::count_flags(&keys)
}
