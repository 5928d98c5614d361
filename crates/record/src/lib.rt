//! The record test: is a record one that some accepted sheet gives?
//! Types, definitions and laws are those of the crate `sheet`.
#![tactic(auto)]

ghost use Rattle.std.specs.Prelude.{◌≡◌, ◌<◌};
ghost use Rattle.ternary.specs.Lists.{all_below};
ghost use Rattle.net.specs.Limits.{most_vertices, most_edges};
ghost use Rattle.sheet.specs.Valid.{is_no_vertex, is_no_edge, valid};
ghost use Rattle.sheet.specs.Fitting.{vertex_fits, edge_fits};

use net::{Edge, Net, Vertex};

// Of vertices and of edges there are two tests each, down to `edges_fit`, of two definitions: one for both would be no shorter.
fn is_no_vertex(x: Vertex) -> bool
    ensures { result ≡ is_no_vertex x }
{
    x == Vertex::default()
}

fn is_no_edge(e: Edge) -> bool
    ensures { result ≡ is_no_edge e }
{
    e == Edge::default()
}

// Is vertex place i as it must be: allowed values where it is in use, else zero?
fn vertex_fits(net: Net, i: usize) -> bool
    requires { i < most_vertices }
    ensures { result ≡ vertex_fits net i }
{
    let x = net.vertices[i];
    if i < net.vertex_count as usize {
        return rules::vertex_ok(net, x);
    }
    is_no_vertex(x)
}

// `edges_fit` below is the same of edges: one function for both would take the test of a place and the number of places, and be no plainer.
fn vertices_fit(net: Net) -> bool
    ensures { result ≡ all_below most_vertices (vertex_fits net) }
{
    (0..Net::MOST_VERTICES).all(|i| vertex_fits(net, i))
}

// The same of edge place i.
fn edge_fits(net: Net, i: usize) -> bool
    requires { i < most_edges }
    ensures { result ≡ edge_fits net i }
{
    let e = net.edges[i];
    if i < net.edge_count as usize {
        return rules::edge_ok(net, e);
    }
    is_no_edge(e)
}

fn edges_fit(net: Net) -> bool
    ensures { result ≡ all_below most_edges (edge_fits net) }
{
    (0..Net::MOST_EDGES).all(|i| edge_fits(net, i))
}

// Is the record one that some accepted sheet gives? Each test may count on those before it.
pub fn is_record(net: Net) -> bool
    ensures { result ≡ valid net }
{
    if !rules::counts_ok(
        net.vertex_count as usize,
        net.edge_count as usize,
        net.letter_count as usize,
    ) {
        return false;
    }
    if !vertices_fit(net) {
        return false;
    }
    if !edges_fit(net) {
        return false;
    }
    graph_rows::graph_answer(net).number == 0
}
