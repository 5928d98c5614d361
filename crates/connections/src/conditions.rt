//! Which edges a connection may use, in lanes. Definitions and laws are those of the crate `excitations`.
ghost use Rattle.std.specs.Prelude.{◌≡◌, suc, ◌≤◌, ◌*◌, length, replicate};
ghost use Rattle.ternary.specs.Bits.{digit};
ghost use Rattle.net.specs.Limits.{most_signals, most_edges};
ghost use Rattle.net.specs.Symbols.{decode};
ghost use Rattle.net.specs.State.{admits, condition_of};
ghost use Rattle.lanes.specs.Lanes as lane-spec;
ghost use Rattle.excitations.specs.Conditions.{symbol_at, usable_lanes};

use excitations::Wiring;
use net::{Condition, Kind, Net, Symbol};

// A symbol's value where its signal has the value `bit`.
pub(crate) fn symbol_at(symbol: Symbol, bit: u8) -> u8
    ensures { result ≡ symbol_at symbol bit }
{
    match symbol {
        Symbol::Constant(c) => c,
        Symbol::Letter(_) | Symbol::Vertex(_) => bit,
        Symbol::Unknown => 0,
    }
}

// 1 if a connection of a kind may use an edge of a condition, else 0.
fn admitted(kind: Kind, condition: Condition) -> u8
    ensures { result ≡ digit (admits kind condition) }
{
    match (condition, kind) {
        (Condition::NClosed, Kind::Any | Kind::NType) => 1,
        (Condition::PClosed, Kind::Any | Kind::PType) => 1,
        _ => 0,
    }
}

// The same of an edge's form and symbol, where the symbol's signal has the value `bit`.
fn usable_at(kind: Kind, form: u8, symbol: u16, bit: u8) -> u8
    ensures { result ≡ digit (admits kind (condition_of form (symbol_at (decode symbol) bit))) }
{
    admitted(
        kind,
        symbols::condition_of(form, symbol_at(Symbol::from(symbol), bit)),
    )
}

// Row v, which is an edge's and no vertex's, takes one of two values, by column p: two tables with a row of each, of one call.
fn choose_row(
    rows: &mut [u8],
    v: usize,
    columns: &[u8; Net::COLUMN_LANES],
    p: usize,
    low: u8,
    high: u8,
)
    requires { (suc v * lane-spec.assignments ≤ length rows.old) × (p ≤ most_signals) × (columns.now ≡ lane-spec.columns) }
    ensures { rows.new ≡ lane-spec.choose_row v p low high rows.old }
{
    let to = v * Net::ASSIGNMENTS;
    let from = p * Net::ASSIGNMENTS;
    for w in 0..Net::ASSIGNMENTS {
        rows[to + w] = lane_values::chosen(low, high, columns[from + w]);
    }
}

// 1 where a connection of a kind may use an edge, at each assignment of the signals of the component that the edge touches. The table comes as zeros.
pub(crate) fn usable_lanes(on: &mut [u8; Net::EDGE_LANES], wiring: &Wiring, kind: Kind)
    requires { on.old ≡ replicate (most_edges * lane-spec.assignments) 0 }
    ensures { on.new ≡ usable_lanes wiring.now.net.now kind }
{
    let count = wiring.net.edge_count as usize;
    // By number: an edge's row has it too, and of `enumerate` over a part each fact would go through the part.
    for i in 0..count {
        let edge = wiring.net.edges[i];
        let y = lane_values::chosen(edge.end2, edge.end1, wiring.storage[edge.end1 as usize]);
        if wiring.storage[y as usize] == 1 {
            let p = wiring.places[y as usize * Symbol::BOUND + edge.symbol as usize];
            let low = usable_at(kind, edge.form, edge.symbol, 0);
            let high = usable_at(kind, edge.form, edge.symbol, 1);
            choose_row(on, i, wiring.columns, p as usize, low, high);
        }
    }
}
