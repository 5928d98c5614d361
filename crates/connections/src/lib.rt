//! Connections to input vertices, in lanes. Definitions and laws are those of the crate `excitations`.
#![tactic(auto)]

mod conditions;
mod lane_marks;

ghost use Rattle.std.specs.Prelude.{◌≡◌, suc, ◌*◌, ◌≤◌, ◌<◌, eqb, replicate};
ghost use Rattle.ternary.specs.Bits.{digit};
ghost use Rattle.net.specs.Limits.{most_vertices, most_edges};
ghost use Rattle.net.specs.Symbols.{decode};
ghost use Rattle.lanes.specs.Lanes as lane-spec;
ghost use Rattle.excitations.specs.Conditions.{symbol_at};
ghost use Rattle.excitations.specs.Connections.{connected_lanes};
ghost use Rattle.excitations.specs.Sweeps as spec;

use excitations::Wiring;
use net::{Kind, Net, Symbol};

// 1 if a label has the value where its signal has the value `bit`, else 0.
fn label_hits(label: u16, bit: u8, value: u8) -> u8
    ensures { result ≡ digit (eqb (symbol_at (decode label) bit) value) }
{
    flags::equal(conditions::symbol_at(Symbol::from(label), bit), value)
}

// Marks where an edge that is on joins a storage vertex to an input vertex of the value. The table comes as zeros.
fn driven(
    marks: &mut [u8; Net::VERTEX_LANES],
    wiring: &Wiring,
    on: &[u8; Net::EDGE_LANES],
    value: u8,
)
    requires { marks.old ≡ replicate (suc most_vertices * lane-spec.assignments) 0 }
    ensures { marks.new ≡ spec.driven_lanes wiring.now.net.now on.now value }
{
    let count = wiring.net.edge_count as usize;
    for i in 0..count {
        let edge = wiring.net.edges[i];
        let flag = wiring.storage[edge.end1 as usize];
        let y = lane_values::chosen(edge.end2, edge.end1, flag);
        let x = lane_values::chosen(edge.end1, edge.end2, flag);
        if wiring.storage[y as usize] == 1 && wiring.storage[x as usize] != 1 {
            let label = wiring.inputs[x as usize];
            let p = wiring.places[y as usize * Symbol::BOUND + label as usize];
            let low = label_hits(label, 0, value);
            let high = label_hits(label, 1, value);
            lane_marks::mark_row(marks, y, on, i, wiring.columns, p as usize, low, high);
        }
    }
}

// Edge i between u and v, where it is on, carries the mark of either end to the other. Was there nothing to carry? Mostly so, and the test costs less
// than carrying.
fn carry(
    marks: &mut [u8; Net::VERTEX_LANES],
    u: u8,
    v: u8,
    on: &[u8; Net::EDGE_LANES],
    i: usize,
) -> bool
    requires { (u ≤ most_vertices) × (v ≤ most_vertices) × (i < most_edges) }
    ensures { (marks.new ≡ spec.carry on.now i u v marks.old) × (result ≡ lane-spec.level on.now i marks.old u v) }
{
    if lane_marks::is_level(marks, u, v, on, i) {
        return true;
    }
    lane_marks::raise_row(marks, u, v, on, i);
    lane_marks::raise_row(marks, v, u, on, i);
    false
}

// The edge that comes as number n, where the edges are taken in their order or, if `back`, against it.
#[tactic(auto, unfolding(excitations::specs::Sweeps::turned))]
fn turned(back: bool, count: usize, n: usize) -> usize
    requires { n < count }
    ensures { result ≡ spec.turned back count n }
{
    if back { count - 1 - n } else { n }
}

// The edges between storage vertices carry, one after the other. Was there nothing to carry? One loop takes either order: an iterator of each would make
// two loops, or a contract about whatever a caller's iterator gives.
fn sweep(
    marks: &mut [u8; Net::VERTEX_LANES],
    wiring: &Wiring,
    on: &[u8; Net::EDGE_LANES],
    back: bool,
) -> bool
    ensures { (marks.new ≡ spec.sweep wiring.now.net.now on.now back wiring.now.net.now.edge_count marks.old) × (result ≡ spec.is_closed wiring.now.net.now on.now marks.old) }
{
    let count = wiring.net.edge_count as usize;
    let mut closed = true;
    for n in 0..count {
        let i = turned(back, count, n);
        let edge = wiring.net.edges[i];
        let u = edge.end1;
        let v = edge.end2;
        if wiring.storage[u as usize] == 1 && wiring.storage[v as usize] == 1 {
            closed &= carry(marks, u, v, on, i);
        }
    }
    closed
}

// 1 where a storage vertex has a connection of a kind to an input vertex of the value. The table comes as zeros: one that is returned is copied twice.
pub fn connected_lanes(marks: &mut [u8; Net::VERTEX_LANES], wiring: &Wiring, kind: Kind, value: u8)
    requires { marks.old ≡ replicate (suc most_vertices * lane-spec.assignments) 0 }
    ensures { marks.new ≡ connected_lanes wiring.now.net.now kind value }
{
    let mut on = [0u8; Net::EDGE_LANES];
    conditions::usable_lanes(&mut on, wiring, kind);
    driven(marks, wiring, &on, value);
    // A chain of edges that stand against the order takes one sweep back, but a sweep an edge forward.
    let mut back = false;
    while !sweep(marks, wiring, &on, back) {
        back = !back;
    }
}
