// Edges as numbers: one number for all edges that join the same two vertices and have the same symbol and form. To count such edges is to compare numbers, and
// the compiler compares several at a time.

ghost use Rattle.std.specs.Prelude.{◌≡◌, ◌≤◌, ◌<◌};
ghost use Rattle.net.specs.Limits.{most_vertices, most_edges};
ghost use Rattle.net.specs.Symbols.{symbol_bound};
ghost use Rattle.sheet.specs.Checked.{Checked};
ghost use Rattle.sheet.specs.EdgeNumbers.{form_bound, InRange, digits, edge_number, edge_numbers, times_among};

use net::{Edge, Net, Symbol};

// How many numbers a form, a symbol and an end may be; what stands before such a part is multiplied by that.
pub(crate) const FORMS: u32 = 4;

const SYMBOLS: u32 = Symbol::BOUND as u32;

const ENDS: u32 = Net::VERTEX_PLACES as u32;

// Two ends, a symbol and a form as one number.
fn digits_of(u: u8, v: u8, symbol: u16, form: u8) -> u32
    requires { (u ≤ most_vertices) × (v ≤ most_vertices) × (symbol < symbol_bound) × (form < form_bound) }
    ensures { result ≡ digits u v symbol form }
{
    ((u as u32 * ENDS + v as u32) * SYMBOLS + symbol as u32) * FORMS + form as u32
}

// The number of an edge: its lower end comes first.
fn edge_number(e: Edge) -> u32
    requires { InRange e }
    ensures { result ≡ edge_number e }
{
    if e.end1 <= e.end2 {
        return digits_of(e.end1, e.end2, e.symbol, e.form);
    }
    digits_of(e.end2, e.end1, e.symbol, e.form)
}

// The numbers of the edges in use.
pub(crate) fn edge_numbers(net: Net) -> [u32; Net::MOST_EDGES]
    requires { Checked net }
    ensures { result ≡ edge_numbers net }
{
    let mut numbers = [0u32; Net::MOST_EDGES];
    let count = net.edge_count as usize;
    // By places, of two tables.
    for j in 0..count {
        numbers[j] = edge_number(net.edges[j]);
    }
    numbers
}

// How often a number stands among the first n.
pub(crate) fn times_among(numbers: &[u32; Net::MOST_EDGES], n: usize, number: u32) -> u32
    requires { n ≤ most_edges }
    ensures { result ≡ times_among numbers.now n number }
{
    let mut times: u32 = 0;
    for other in &numbers[..n] {
        times += u32::from(*other == number);
    }
    times
}
