//! The components of a net's graph: a label for each vertex, and the lowest vertex of a component. Types, definitions and laws are those of the
//! crate `net`.
#![tactic(auto)]

mod classes;

ghost use Rattle.std.specs.Prelude.{◌≡◌, ◌≤◌};
ghost use Rattle.net.specs.Limits.{most_vertices};
ghost use Rattle.net.specs.Tables.{Readable, storage_flags, component_labels, lowest_member};

use net::{Graph, Net};

// The label of each vertex's component: each edge in use that joins storage vertices makes one class of its ends' classes.
pub fn component_labels(net: Net, storage: &[u8; Net::VERTEX_PLACES]) -> [u8; Net::VERTEX_PLACES]
    requires { Readable net × (storage.now ≡ storage_flags net) }
    ensures { result ≡ component_labels net }
{
    let mut labels = classes::own_labels();
    let count = net.edge_count as usize;
    for edge in &net.edges[..count] {
        if flags::both(storage[edge.end1 as usize], storage[edge.end2 as usize]) == 1 {
            classes::merge_classes(&mut labels, edge.end1, edge.end2);
        }
    }
    labels
}

// A net with its storage flags and labels.
pub fn graph(net: Net) -> Graph
    requires { Readable net }
    ensures { result.net ≡ net }
{
    let storage = graph::storage_flags(net);
    let labels = component_labels(net, &storage);
    Graph {
        net,
        storage,
        labels,
    }
}

// The lowest storage vertex that is labelled as y is; y itself where none is below it. It promises this for any two tables, so it takes no Graph.
pub fn lowest_member<'a>(
    storage: &'a [u8; Net::VERTEX_PLACES],
    labels: &'a [u8; Net::VERTEX_PLACES],
    y: u8,
) -> u8
    requires { y ≤ most_vertices }
    ensures { result ≡ lowest_member storage.now labels.now y }
{
    let label = labels[y as usize];
    for x in 0..y {
        if flags::both(storage[x as usize], flags::equal(label, labels[x as usize])) == 1 {
            return x;
        }
    }
    y
}
