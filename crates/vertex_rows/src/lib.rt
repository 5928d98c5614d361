//! The table of excitations: those of every storage vertex, in lanes. Definitions and laws are those of the crate `excitations`.
#![tactic(auto)]

ghost use Rattle.std.specs.Prelude.{◌≡◌, suc, ◌*◌, eqb, length, get_or};
ghost use Rattle.ternary.specs.Lists.{table};
ghost use Rattle.net.specs.Limits.{most_vertices};
ghost use Rattle.net.specs.Excitation.{excitation_of};
ghost use Rattle.lanes.specs.Lanes.{assignments};
ghost use Rattle.lanes.specs.Lanes as lane-spec;
ghost use Rattle.excitations.specs.Fit.{Fit};
ghost use Rattle.excitations.specs.Excitations.{excitation_lanes};

use excitations::Wiring;
use net::{Kind, Net};
use std::array;

// Row p holds bit p of each assignment.
fn columns() -> [u8; Net::COLUMN_LANES]
    ensures { result ≡ lane-spec.columns }
{
    array::from_fn(|i| (((i % Net::ASSIGNMENTS) >> (i / Net::ASSIGNMENTS)) % 2) as u8)
}

// n0, c0: an n-connection, a connection to 0. p1, c1: a p-connection, a connection to 1. The values are the papers' numbers, a byte a lane.
#[tactic(auto, unfolding(net::specs::Excitation::excitation_of))]
fn excited(n0: u8, c0: u8, p1: u8, c1: u8) -> u8
    ensures { result ≡ excitation_of (eqb n0 1) (eqb c0 1) (eqb p1 1) (eqb c1 1) }
{
    if c1 == 1 {
        if c0 == 1 {
            return 5;
        }
        return if p1 == 1 { 1 } else { 2 };
    }
    if n0 == 1 {
        return 0;
    }
    if c0 == 1 {
        return 2;
    }
    if p1 == 1 { 1 } else { 3 }
}

// The excitations that four tables of connections give, lane by lane.
fn combine(
    excitations: &mut [u8; Net::VERTEX_LANES],
    n0: &[u8; Net::VERTEX_LANES],
    c0: &[u8; Net::VERTEX_LANES],
    p1: &[u8; Net::VERTEX_LANES],
    c1: &[u8; Net::VERTEX_LANES],
)
    requires { length excitations.old ≡ suc most_vertices * assignments }
    ensures { excitations.new ≡ table (suc most_vertices * assignments) (λ i. excitation_of (eqb (get_or n0.now i 0) 1) (eqb (get_or c0.now i 0) 1) (eqb (get_or p1.now i 0) 1) (eqb (get_or c1.now i 0) 1)) }
{
    // By places, of five tables.
    for i in 0..Net::VERTEX_LANES {
        excitations[i] = excited(n0[i], c0[i], p1[i], c1[i]);
    }
}

// The table, from what the walks read.
fn fill_from(wiring: &Wiring, excitations: &mut [u8; Net::VERTEX_LANES])
    requires { length excitations.old ≡ suc most_vertices * assignments }
    ensures { excitations.new ≡ excitation_lanes wiring.now.net.now }
{
    let mut c0 = [0u8; Net::VERTEX_LANES];
    connections::connected_lanes(&mut c0, wiring, Kind::Any, 0);
    let mut c1 = [0u8; Net::VERTEX_LANES];
    connections::connected_lanes(&mut c1, wiring, Kind::Any, 1);
    let mut n0 = [0u8; Net::VERTEX_LANES];
    connections::connected_lanes(&mut n0, wiring, Kind::NType, 0);
    let mut p1 = [0u8; Net::VERTEX_LANES];
    connections::connected_lanes(&mut p1, wiring, Kind::PType, 1);
    combine(excitations, &n0, &c0, &p1, &c1);
}

// The excitations of every storage vertex, at every assignment of its component's signals. It promises them for any fit net, whoever has made no tables yet.
pub fn fill(net: Net, excitations: &mut [u8; Net::VERTEX_LANES])
    requires { Fit net × (length excitations.old ≡ suc most_vertices * assignments) }
    ensures { excitations.new ≡ excitation_lanes net }
{
    let graph = component_labels::graph(net);
    let inputs = signals::input_labels(net);
    let places = signal_places::signal_places(&graph);
    let columns = columns();
    let wiring = Wiring {
        net: &graph.net,
        storage: &graph.storage,
        inputs: &inputs,
        places: &places,
        columns: &columns,
    };
    fill_from(&wiring, excitations);
}
