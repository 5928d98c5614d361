//! Rules: the values that the counts of a header, a vertex and an edge may have.
//! Types, definitions and laws are those of the crates `net` and `sheet`.
#![tactic(auto)]

ghost use Rattle.std.specs.Prelude.{◌≡◌, ◌&&◌, leb};
ghost use Rattle.net.specs.Symbols.{within};
ghost use Rattle.net.specs.Graph.{is_storage};
ghost use Rattle.net.specs.Known.{known_symbol, known_label};
ghost use Rattle.sheet.specs.Rules.{counts_ok, vertex_ok, symbol_ok, edge_ok};

use net::{Edge, Net, Symbol, Vertex};
use sheet::Form;

// Whether the counts of a header are within the limits; there is at least one vertex.
pub fn counts_ok(vertices: usize, edges: usize, letters: usize) -> bool
    ensures { result ≡ counts_ok vertices edges letters }
{
    if vertices == 0 {
        return false;
    }
    if Net::MOST_VERTICES < vertices {
        return false;
    }
    if Net::MOST_EDGES < edges {
        return false;
    }
    letters <= Net::MOST_LETTERS
}

// Whether v is the number of a vertex where there are `count` of them.
fn is_vertex(count: u8, v: u8) -> bool
    ensures { result ≡ within 1 count v }
{
    if v == 0 {
        return false;
    }
    v <= count
}

// Whether v is a storage vertex. In a record that is not valid the count may go beyond the places, where no vertex is.
fn is_storage(net: Net, v: u8) -> bool
    ensures { result ≡ is_storage net v }
{
    if !is_vertex(net.vertex_count, v) {
        return false;
    }
    let i = (v - 1) as usize;
    if Net::MOST_VERTICES <= i {
        return false;
    }
    let role = net.vertices[i].role;
    match role {
        Vertex::STORAGE..=Vertex::OUTPUT => true,
        _ => false,
    }
}

// Whether an input vertex may carry the symbol.
fn known_label(net: Net, s: Symbol) -> bool
    ensures { result ≡ known_label net s }
{
    match s {
        Symbol::Constant(_) => true,
        Symbol::Letter(j) => j <= net.letter_count,
        Symbol::Vertex(_) => false,
        Symbol::Unknown => false,
    }
}

// Whether an edge may have the symbol.
fn known_symbol(net: Net, s: Symbol) -> bool
    ensures { result ≡ known_symbol net s }
{
    match s {
        Symbol::Constant(_) => true,
        Symbol::Letter(j) => j <= net.letter_count,
        Symbol::Vertex(v) => is_storage(net, v),
        Symbol::Unknown => false,
    }
}

// An input vertex has a known label, a storage vertex the label 0.
pub fn vertex_ok(net: Net, x: Vertex) -> bool
    ensures { result ≡ vertex_ok net x }
{
    let role = x.role;
    match role {
        Vertex::INPUT => known_label(net, Symbol::from(x.label)),
        Vertex::STORAGE..=Vertex::OUTPUT => x.label == 0,
        _ => false,
    }
}

// Whether the form is known and goes with the symbol: a primed form has no constant.
fn symbol_ok(net: Net, e: Edge) -> bool
    ensures { result ≡ (leb e.form 3 && symbol_ok net e) }
{
    let s = Symbol::from(e.symbol);
    match Form::from(e.form) {
        Form::Plain => known_symbol(net, s),
        Form::Primed => {
            if symbols::is_variable(s) {
                return known_symbol(net, s);
            }
            false
        }
        Form::Unknown => false,
    }
}

// An edge joins two vertices that differ.
pub fn edge_ok(net: Net, e: Edge) -> bool
    ensures { result ≡ edge_ok net e }
{
    if !is_vertex(net.vertex_count, e.end1) {
        return false;
    }
    if !is_vertex(net.vertex_count, e.end2) {
        return false;
    }
    if e.end1 == e.end2 {
        return false;
    }
    symbol_ok(net, e)
}
